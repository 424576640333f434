//! What is wrong with a line. The first fault of a line is said, and no other.
use lines::shown::shown;
use std::io;
use std::io::Write;

/// A fault, with the words and numbers that its sentence shows.
#[derive(Clone, Copy, Debug, PartialEq, Eq)]
pub(crate) enum Fault<'t> {
    /// A word, or the end of the line where it is empty, and what is said of it.
    Word(&'t [u8], &'static str),
    /// A sentence of its own.
    Line(&'static str),
    /// More records of a kind than a plan may have.
    TooMany(&'static str, usize),
    TooManyWords(usize),
    TooManyNames(&'t [u8]),
    Precision(u32),
    /// A name that a node has already, and the node.
    NameOfNode(&'t [u8], u32),
    /// A name that a stream has already, and the stream.
    NameOfStream(&'t [u8], u32),
    /// A number in the place of a stream's name, and the number that the stream has.
    NotOwnNumber(&'t [u8], u32),
    /// A node with a name, and what is said of it.
    Named(u32, &'t [u8], &'static str),
    /// No link goes from a node to another.
    NoLink(&'t [u8], &'t [u8]),
    ManyLinks(&'t [u8], &'t [u8]),
}

// What stands somewhere, where the line may have ended.
fn stands<E: Write>(err: &mut E, word: &[u8]) -> io::Result<()> {
    if word.is_empty() {
        return err.write_all(b"the end of the line");
    }
    shown(err, word);
    Ok(())
}

// The two ends of a link.
fn ends<E: Write>(err: &mut E, from: &[u8], to: &[u8]) -> io::Result<()> {
    shown(err, from);
    err.write_all(b" to ")?;
    shown(err, to);
    Ok(())
}

// Kept: a line and a name are bytes of any kind, which Display, a text of characters, cannot write.
impl Fault<'_> {
    /// Says what is wrong with the line of a number.
    pub(crate) fn say<E: Write>(&self, err: &mut E, line: u32) -> io::Result<()> {
        write!(err, "conepalhui: line {line}: ")?;
        match *self {
            Fault::Word(word, sentence) => {
                stands(err, word)?;
                err.write_all(sentence.as_bytes())?;
            }
            Fault::Line(sentence) => err.write_all(sentence.as_bytes())?,
            Fault::TooMany(kind, most) => {
                write!(err, "one {kind} too many: expected at most {most} {kind}s")?;
            }
            Fault::TooManyWords(words) => write!(
                err,
                "the line has {words} words: expected a record with its fields, each once"
            )?,
            Fault::TooManyNames(name) => {
                shown(err, name);
                write!(
                    err,
                    " is one name too many: expected names for at most {} nodes",
                    crate::MAX_NAMED
                )?;
            }
            Fault::Precision(ns) => {
                write!(err, "the precision is {ns}ns: expected at most 1ms")?;
            }
            Fault::NameOfNode(name, node) => {
                shown(err, name);
                write!(
                    err,
                    " is node {node} already: expected each name for one node, and declared above its first use"
                )?;
            }
            Fault::NameOfStream(name, stream) => {
                shown(err, name);
                write!(
                    err,
                    " is stream {stream} already: expected each name for one stream"
                )?;
            }
            Fault::NotOwnNumber(word, own) => {
                shown(err, word);
                write!(
                    err,
                    " is not the number of this stream: expected {own}, or a name, which does not begin with a digit"
                )?;
            }
            Fault::Named(node, name, sentence) => {
                write!(err, "node {node} is ")?;
                shown(err, name);
                err.write_all(sentence.as_bytes())?;
            }
            Fault::NoLink(from, to) => {
                err.write_all(b"no link goes from ")?;
                ends(err, from, to)?;
                err.write_all(b": expected the ends of a link above")?;
            }
            Fault::ManyLinks(from, to) => {
                err.write_all(b"more than one link goes from ")?;
                ends(err, from, to)?;
                err.write_all(b": expected the number of one, as in leg link 7")?;
            }
        }
        err.write_all(b"\n")
    }
}
