// Long texts, by what stands in them over and over.

use std::alloc::{AllocError, Global};

/// A piece of a text.
#[derive(Clone, Copy)]
pub(crate) enum Piece<'a> {
    /// A text once.
    Once(&'a str),
    /// A text so often.
    Often(&'a str, u32),
    /// For each number below the count these texts, with the number between each two of them.
    Numbered(&'a [&'a str], u32),
}

fn put_often(out: &mut String, text: &str, count: u32) -> Result<(), AllocError> {
    for _ in 0..count {
        out.push_str(text)?;
    }
    Ok(())
}

// These texts, with the number between each two of them.
fn put_around(out: &mut String, texts: &[&str], number: &str) -> Result<(), AllocError> {
    let mut behind = false;
    for text in texts {
        if behind {
            out.push_str(number)?;
        }
        out.push_str(text)?;
        behind = true;
    }
    Ok(())
}

fn put_numbered(
    out: &mut String,
    alloc: Global,
    texts: &[&str],
    count: u32,
) -> Result<(), AllocError> {
    for number in 0..count {
        let number = number.to_string(alloc)?;
        put_around(out, texts, number.as_str())?;
    }
    Ok(())
}

fn put_piece(out: &mut String, alloc: Global, piece: &Piece<'_>) -> Result<(), AllocError> {
    match piece {
        Piece::Once(text) => out.push_str(text),
        Piece::Often(text, count) => put_often(out, text, *count),
        Piece::Numbered(texts, count) => put_numbered(out, alloc, texts, *count),
    }
}

/// The text of these pieces, one behind the other.
pub(crate) fn text_of(alloc: Global, pieces: &[Piece<'_>]) -> Result<String, AllocError> {
    let mut out = String::new(alloc);
    for piece in pieces {
        put_piece(&mut out, alloc, piece)?;
    }
    Ok(out)
}
