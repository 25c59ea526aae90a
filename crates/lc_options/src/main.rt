//! The program `lc_options` prints the table of options of `lc`: a line for each argument of a command, with tabs between fields.
//!
//! `tools/options` turns the printed table into the parts of the manual page and of the completions that list options.
#![tactic(auto)]

use lc_arguments::{Commands, Completes, Kind, OptionRow, options};
use std::alloc::{AllocError, Global};
use std::io;

/// The first printed line: the names of the fields.
const NAMES: &str =
    "name\tletter\tvalue\tkind\tdefault\tcommands\theading\thelp\tlong help\tbrief\texample\tcompletes";

fn push_kind(line: &mut String, kind: Kind) -> Result<(), AllocError> {
    match kind {
        Kind::Flag => line.push_str("flag"),
        Kind::Text => line.push_str("text"),
        Kind::Texts => line.push_str("texts"),
        Kind::Number(most) | Kind::Range(most) => write!(line, "number 1 to {most}"),
        Kind::Word => line.push_str("word"),
        Kind::Words => line.push_str("words"),
    }
}

fn push_commands(line: &mut String, commands: Commands) -> Result<(), AllocError> {
    let mut before = "";
    for (has, name) in [
        (commands.count, "count"),
        (commands.sum, "sum"),
        (commands.diff, "diff"),
        (commands.explain, "explain"),
        (commands.check, "check"),
    ] {
        if has {
            write!(line, "{before}{name}")?;
            before = " ";
        }
    }
    Ok(())
}

/// Appends a text, with spaces instead of its line feeds.
fn push_joined(line: &mut String, text: &str) -> Result<(), AllocError> {
    for c in text.chars() {
        line.push(if c == '\n' { ' ' } else { c })?;
    }
    Ok(())
}

fn push_words(line: &mut String, words: &[&str]) -> Result<(), AllocError> {
    for word in words {
        write!(line, " {word}")?;
    }
    Ok(())
}

fn push_completes(line: &mut String, completes: Completes) -> Result<(), AllocError> {
    match completes {
        Completes::Nothing => Ok(()),
        Completes::Files => line.push_str("files"),
        Completes::Words(words) => {
            line.push_str("words")?;
            push_words(line, words)
        }
        Completes::Meanings(words) => {
            line.push_str("meanings")?;
            for (word, meaning) in words {
                write!(line, " {word}={meaning};")?;
            }
            Ok(())
        }
        Completes::List(words) => {
            line.push_str("list")?;
            push_words(line, words)
        }
    }
}

/// Makes the printed line of a row in the table of options.
fn line_of(alloc: Global, row: &OptionRow) -> Result<String, AllocError> {
    let (name, value) = (row.name, row.value);
    let mut line = format!(in alloc; "{name}\t")?;
    if let Some(letter) = row.short {
        line.push(letter)?;
    }
    write!(line, "\t{value}\t")?;
    push_kind(&mut line, row.kind)?;
    line.push('\t')?;
    line.push_str(row.default.unwrap_or(""))?;
    line.push('\t')?;
    push_commands(&mut line, row.of)?;
    let texts = row.texts();
    for text in [
        texts.heading,
        texts.help,
        texts.long_help,
        texts.brief,
        texts.example,
    ] {
        line.push('\t')?;
        push_joined(&mut line, text)?;
    }
    line.push('\t')?;
    push_completes(&mut line, row.completes)?;
    Ok(line)
}

fn main(rt: HostRuntime) -> io::Result<()> {
    println!(rt; "{NAMES}")?;
    for row in options() {
        let line = line_of(rt.alloc(), row)?;
        println!(rt; "{line}")?;
    }
    Ok(())
}
