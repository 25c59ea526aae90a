//! Making in-memory trees from sketches. A sketch is a text that lists the entries of a tree.

use lc_tree::{Node, OtherKind};
use std::alloc::{AllocError, Global};

/// A directory that is being read: its name, and its entries so far.
type Open = (Vec<u8>, Vec<(Vec<u8>, Node)>);

/// Returns the bytes of a file in a sketch: `;` is a line feed, `^` a carriage return, and `_` a space.
pub(crate) fn content(alloc: Global, text: &str) -> Result<Vec<u8>, AllocError> {
    let mut bytes = Vec::new(alloc);
    for byte in text.as_bytes() {
        let byte = match *byte {
            b';' => b'\n',
            b'^' => b'\r',
            b'_' => b' ',
            other => other,
        };
        bytes.push(byte)?;
    }
    Ok(bytes)
}

/// Reads the name and the contents of an entry from a word.
fn entry<'a>(alloc: Global, word: &'a str) -> Result<(&'a str, Node), AllocError> {
    if let Some((name, text)) = word.split_once('=') {
        return Ok((name, Node::File(content(alloc, text)?)));
    }
    if let Some(name) = word.strip_suffix("/!") {
        return Ok((name, Node::Closed));
    }
    if let Some((name, text)) = word.split_once('!') {
        return Ok((name, Node::Failing(content(alloc, text)?)));
    }
    if let Some(name) = word.strip_suffix("@/") {
        return Ok((name, Node::Other(OtherKind::Mounted)));
    }
    if let Some(name) = word.strip_suffix('/') {
        return Ok((name, Node::Dir(Vec::new(alloc))));
    }
    match word.strip_suffix('@') {
        Some(name) => Ok((name, Node::Other(OtherKind::Special))),
        None => Ok((word, Node::File(b"x\n".to_vec(alloc)?))),
    }
}

/// Adds an entry to the directory that was opened last.
fn put(open: &mut Vec<Open>, name: Vec<u8>, node: Node) -> Result<(), AllocError> {
    if let Some((_, entries)) = open.last_mut() {
        entries.push((name, node))?;
    }
    Ok(())
}

/// Closes the directory that was opened last, and adds it to its parent directory.
fn close(open: &mut Vec<Open>) -> Result<(), AllocError> {
    match open.pop() {
        Some((name, entries)) => put(open, name, Node::Dir(entries)),
        None => Ok(()),
    }
}

fn put_word(alloc: Global, open: &mut Vec<Open>, word: &str) -> Result<(), AllocError> {
    if word == "}" {
        return close(open);
    }
    if let Some(name) = word.strip_suffix("/{") {
        open.push((name.as_bytes().to_vec(alloc)?, Vec::new(alloc)))?;
        return Ok(());
    }
    let (name, node) = entry(alloc, word)?;
    put(open, name.as_bytes().to_vec(alloc)?, node)
}

/// Makes the tree that a sketch describes. The sketch lists the entries of the top directory, separated by spaces and line ends:
///
/// | Word | Entry |
/// |---|---|
/// | `a` | a file with one line, `x` |
/// | `a=*.c_text;b` | a file of these bytes: `;` is a line feed, `^` a carriage return, and `_` a space |
/// | `a!` or `a!x;` | a file that has these bytes and then fails instead of ending |
/// | `a/` | a directory without entries |
/// | `a/{ b c }` | a directory with these entries |
/// | `a/!` | a directory that can't be listed |
/// | `a@` | neither a file nor a directory |
/// | `a@/` | a directory on another file system, which a walk does not enter |
///
/// The sketch `/!` describes a top directory that can't be listed.
pub fn tree(alloc: Global, sketch: &str) -> Result<Node, AllocError> {
    if sketch == "/!" {
        return Ok(Node::Closed);
    }
    let mut open = Vec::new(alloc);
    open.push((Vec::new(alloc), Vec::new(alloc)))?;
    for word in sketch.split_ascii_whitespace() {
        put_word(alloc, &mut open, word)?;
    }
    match open.pop() {
        Some((_, entries)) => Ok(Node::Dir(entries)),
        None => Ok(Node::Dir(Vec::new(alloc))),
    }
}

/// Returns a directory of this many files, whose names are numbers from 10,000 on. Each has its name as its bytes, and one of `period`
/// files fails instead of ending.
pub fn numbered_files(alloc: Global, count: u16, period: u16) -> Result<Node, AllocError> {
    let mut entries = Vec::new(alloc);
    for number in 0..count {
        let name = format!(in alloc; "{}", 10_000 + u32::from(number))?.into_bytes();
        let bytes = name.to_vec(alloc)?;
        let node = if number % period.max(1) == period / 2 {
            Node::Failing(bytes)
        } else {
            Node::File(bytes)
        };
        entries.push((name, node))?;
    }
    Ok(Node::Dir(entries))
}
