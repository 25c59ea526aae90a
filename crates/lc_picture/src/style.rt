//! The parts of a page that are the same for every report.

ghost use Rattle.std.specs.Prelude.{◌≡◌};
ghost use Rattle.lc_picture.specs.Page.{chart_begin, explanation, legend_begin, page_end, tree_begin, tree_end};
ghost use Rattle.lc_picture.specs.Style.{body_begin, page_begin, style, style_begin};

/// Returns the beginning of a page, up to its title.
pub(crate) fn page_begin() -> &'static [u8]
    ensures { result.now ≡ page_begin }
{
    b"<!DOCTYPE html>\n<html lang=\"en\">\n<head>\n<meta charset=\"utf-8\">\n\
      <meta name=\"viewport\" content=\"width=device-width\">\n<title>"
}

/// Returns the style of a page's parts. A box divides its space by the numbers of its strips, and a strip by those of its boxes. Both have
/// neither border nor padding at the sides that are divided, which flex adds before it divides. A label that is lower than a line or
/// narrower than three letters is hidden. A box that a link names lies over the whole tree.
#[tactic(auto, unfolding(crate::specs::Style::style))]
pub(crate) fn style() -> &'static [u8]
    ensures { result.now ≡ style }
{
    b":root{color-scheme:light dark}\nbody{margin:.75rem 1rem;font:.875rem/1.35 system-ui,sans-serif}\n\
      h1{margin:0;font-size:1.5rem;line-height:1.2;overflow-wrap:anywhere}\nh2{margin:1.5rem 0 .5rem;font-size:1.1rem}\n\
      .by{margin:0;overflow-wrap:anywhere}\n.by::first-letter{text-transform:uppercase}\n\
      dl{display:flex;flex-wrap:wrap;gap:0 2rem;margin:.3rem 0}\n\
      dl div{display:flex;flex-direction:row-reverse;align-items:baseline;gap:.4em}\n\
      dd{margin:0;font-size:1.3rem;line-height:1.2;font-variant-numeric:tabular-nums}\n\
      ul{max-height:9em;overflow:auto;overflow-wrap:anywhere}\n\
      .legend{display:flex;flex-wrap:wrap;gap:.2rem .4rem;margin:0 0 .4rem;font-size:.75rem}\n\
      .legend span{padding:0 .4em;background:var(--c);overflow-wrap:anywhere}\n.legend a{visibility:hidden}\n\
      body:has(:target) .legend a{visibility:visible}\n\
      .tree{position:relative;display:flex;height:calc(100vh - 8.5rem);min-height:30rem;font-size:.7rem;line-height:1.25}\n\
      .b{flex:var(--n) 1 0;min-width:0;min-height:0;overflow:hidden;display:flex;flex-direction:column;background:var(--c);\
      \nscroll-margin-top:100vh;outline:1px solid color-mix(in srgb,CanvasText 35%,#0000);outline-offset:-.5px}\n\
      .b:target{position:absolute;inset:0;z-index:1}\n\
      .b>div{flex:var(--n) 1 0;min-width:0;min-height:0;display:flex;margin:0 2px}\n\
      .b:has(>div>div)::after{content:\"\";flex:0 1 2px}\n\
      .b>a{flex:0 1 1.25em;min-height:0;padding:0 .25em;overflow:hidden;white-space:nowrap;text-overflow:ellipsis;\
      color:inherit;text-decoration:none;container-type:size}\n.b>a:has(+:empty){flex-grow:1}\n.b>div:empty{display:none}\n\
      .b>a[href]:hover b{text-decoration:underline}\n.b>a:focus-visible{outline:2px solid;outline-offset:-2px}\n\
      .b>a>span{opacity:.8}\n\
      @container (height>2.5em) and (width<9em){.b>a>span{display:block;overflow:hidden;text-overflow:ellipsis}}\n\
      @container (height<1.15em) or (width<2.4em){.b>a>:is(b,span){display:none}}\n\
      table{border-collapse:collapse;font-variant-numeric:tabular-nums}\nth,td{padding:0 .6rem;text-align:right}\n\
      tr>:first-child{text-align:left}\n.bar{display:flex;width:min(18rem,22vw);height:.8em}\n.bar i,.bar u{flex-grow:var(--n)}\n\
      .bar i{outline:1px solid #888;background:var(--c)}\n\
      .e0{--c:#7b9cff}.e1{--c:#ee9d38}.e2{--c:#85ca87}.e3{--c:#ce7283}.e4{--c:#3baeaf}\n\
      .e5{--c:#ffe46e}.e6{--c:#d8b4e5}.e7{--c:#b38552}.e8{--c:#d0d0d0}\n.e9{--c:color-mix(in srgb,CanvasText 7%,Canvas)}\n\
      @media (prefers-color-scheme:dark){.e0{--c:#0761a7}.e1{--c:#713f00}.e2{--c:#3e6b44}.e3{--c:#64081a}.e4{--c:#0414b8}\n\
      .e5{--c:#7d6e0a}.e6{--c:#623f6a}.e7{--c:#362f38}.e8{--c:#555555}}\n\
      @media (max-width:45rem){tbody{display:grid;grid-template-columns:repeat(5,auto);font-size:min(.75rem,2.9vw)}\n\
      tr{display:contents}tr>:first-child,tr>:last-child{grid-column:1/-1}th,td{padding:0 .2rem}\n\
      .bar{width:auto;margin-bottom:.4rem}}\n\
      @media print{.tree{height:19cm;break-inside:avoid;font-size:6pt;print-color-adjust:exact}}\n"
}

/// Returns the part of a page between its title and its style.
pub(crate) fn style_begin() -> &'static [u8]
    ensures { result.now ≡ style_begin }
{
    b"</title>\n<style>\n"
}

/// Returns the part of a page between its style and its title.
pub(crate) fn body_begin() -> &'static [u8]
    ensures { result.now ≡ body_begin }
{
    b"</style>\n</head>\n<body>\n<h1>"
}

/// Returns the part of a page before its legend.
pub(crate) fn legend_begin() -> &'static [u8]
    ensures { result.now ≡ legend_begin }
{
    b"<p class=\"legend\">\n"
}

/// Returns the part of a page between its legend and its boxes.
pub(crate) fn tree_begin() -> &'static [u8]
    ensures { result.now ≡ tree_begin }
{
    b"<a href=\"#\">Show all</a>\n</p>\n<div class=\"tree\">\n"
}

/// Returns the part of a page between its boxes and the name of the number that they show.
pub(crate) fn tree_end() -> &'static [u8]
    ensures { result.now ≡ tree_end }
{
    b"</div>\n<p>Each box has its share of the "
}

/// Returns the part of a page after the name of the number that the boxes show.
pub(crate) fn explanation() -> &'static [u8]
    ensures { result.now ≡ explanation }
{
    b" in the box around it, and the colour of the extension that has most of them. A grey box shows the directories and files with \
      less than a thousandth of all. Click the name of a directory to see it alone.</p>\n"
}

/// Returns the part of a page before the rows of the chart.
pub(crate) fn chart_begin() -> &'static [u8]
    ensures { result.now ≡ chart_begin }
{
    b"<h2>By extension</h2>\n<table>\n<tr><th>extension</th><th>files</th><th>lines</th><th>blank</th><th>bytes</th>\
      <th>share</th><td></td></tr>\n"
}

/// Returns the part of a page after the rows of the chart.
pub(crate) fn page_end() -> &'static [u8]
    ensures { result.now ≡ page_end }
{
    b"</table>\n</body>\n</html>\n"
}
