//! Tells what the readers of streams answer to texts, a row on the standard input for each: what is read, `requests` or `replies`;
//! how it is cut, `every` or the sizes of the pieces with commas between them; and the text in hexadecimal digits. For each row a line
//! is printed: the answers, in hexadecimal digits. For `every` the text is read whole, in any two pieces, and byte by byte; where a
//! cut brings other answers, the line goes on with its sizes and these.
#![tactic(auto)]

mod cuts;
mod digits;

use cuts::{answers_in, answers_in_every};
use digits::{bytes_of, digits_of, number_of};
use mr_test_support::Texts;
use std::alloc::Global;
use std::test::Fail;

/// The sizes that a word names.
fn sizes_of(alloc: Global, word: &str) -> Result<Vec<usize>, Fail> {
    let mut sizes = Vec::new(alloc);
    for size in word.split(',') {
        sizes.push(number_of(size.as_bytes()))?;
    }
    Ok(sizes)
}

/// The answers to a text that is cut so.
fn answers_to(alloc: Global, texts: Texts, cut: &str, text: &[u8]) -> Result<String, Fail> {
    match cut {
        "every" => answers_in_every(alloc, texts, text),
        _ => {
            let sizes = sizes_of(alloc, cut)?;
            digits_of(alloc, &answers_in(alloc, texts, text, &sizes)?)
        }
    }
}

/// What a word says is read.
fn texts_of(word: &str) -> Texts {
    match word {
        "requests" => Texts::Requests,
        _ => Texts::Replies,
    }
}

/// The line that a row is answered by.
fn told_of(alloc: Global, row: &str) -> Result<String, Fail> {
    let words: Vec<&str> = row.split(' ').collect(alloc)?;
    match words.as_slice() {
        [texts, cut, digits] => {
            let text = bytes_of(alloc, digits.as_bytes())?;
            answers_to(alloc, texts_of(texts), cut, &text)
        }
        _ => Err(Fail::from("a row has three words")),
    }
}

fn main(rt: HostRuntime) -> Result<(), Fail> {
    for row in rt.lines(rt.alloc()) {
        let told = told_of(rt.alloc(), row?.as_str())?;
        println!(rt; "{told}")?;
    }
    Ok(())
}
