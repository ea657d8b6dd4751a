//! The microwords of a file of version 1.
ghost use Rattle.std.specs.Prelude.{◌≡◌, []};
ghost use Rattle.micro_image.specs.Fields.{no_word};
ghost use Rattle.micro_file.specs.Private.Fields.{many_at};
ghost use Rattle.micro_file.specs.Private.Reads.{Reads};
ghost use Rattle.micro_file.specs.Private.Words.{issue_at, issues_at, word_at};

use crate::byte_reader::ByteReader;
use crate::byte_transfers::{read_enables, read_takes};
use crate::hardware::read_issue_on;
use crate::misread::{Unread, refused};
use crate::order::rises;
use lists::List;
use micro_image::{Enables, Image, Issue, Takes, Word};
use std::alloc::Global;

/// An issue after others.
#[tactic(auto, unfolding(crate::specs::Private::Words::issue_at))]
fn read_issue(
    alloc: Global,
    image: &Image,
    issues: &List<Issue>,
    reader: &mut ByteReader<'_>,
) -> Result<Issue, Unread>
    ensures { Reads (issue_at image.now issues.now) reader.old result reader.new }
{
    let left = reader.left();
    let number = reader.byte()?;
    match image.units.get(usize::from(number)) {
        Some(unit) if rises(issues, number) => read_issue_on(alloc, image, number, unit, reader),
        _ => Err(refused(left)),
    }
}

fn read_several(
    alloc: Global,
    image: &Image,
    count: usize,
    reader: &mut ByteReader<'_>,
) -> Result<List<Issue>, Unread>
    ensures { Reads (many_at (issue_at image.now) [] count) reader.old result reader.new }
{
    let mut issues = List::with_capacity(alloc, count)?;
    for _ in 0..count {
        let issue = read_issue(alloc, image, &issues, reader)?;
        issues.push(issue)?;
    }
    Ok(issues)
}

#[tactic(auto, unfolding(crate::specs::Private::Words::issues_at))]
fn read_issues(
    alloc: Global,
    image: &Image,
    reader: &mut ByteReader<'_>,
) -> Result<List<Issue>, Unread>
    ensures { Reads (issues_at image.now) reader.old result reader.new }
{
    let count = reader.byte_up_to(image.units.len())?;
    read_several(alloc, image, usize::from(count), reader)
}

#[inline]
#[tactic(auto, unfolding(crate::specs::Private::Words::word_at))]
fn read_lists(alloc: Global, image: &Image, reader: &mut ByteReader<'_>) -> Result<Word, Unread>
    ensures { Reads (word_at image.now) reader.old result reader.new }
{
    let issues = read_issues(alloc, image, reader)?;
    let enables = read_enables(alloc, image, reader)?;
    let takes = read_takes(alloc, image, reader)?;
    Ok(Word {
        issues,
        enables,
        takes,
    })
}

// Kept out of the loop over all words it saves an empty one 7 instructions. The bytes that its own reader has left stay
// in registers, which saves crowded words 7 per cent.
#[inline(never)]
fn read_word(alloc: Global, image: &Image, reader: &mut ByteReader<'_>) -> Result<Word, Unread>
    ensures { Reads (word_at image.now) reader.old result reader.new }
{
    let mut own = reader.fork();
    let word = read_lists(alloc, image, &mut own)?;
    *reader = own;
    Ok(word)
}

#[inline]
pub(crate) fn empty_word(alloc: Global) -> Word
    ensures { result ≡ no_word }
{
    Word {
        issues: List::new(alloc),
        enables: Enables::new(alloc),
        takes: Takes::new(alloc),
    }
}

pub(crate) fn read_words(
    alloc: Global,
    image: &Image,
    count: usize,
    reader: &mut ByteReader<'_>,
) -> Result<List<Word>, Unread>
    ensures { Reads (many_at (λ _. word_at image.now) [] count) reader.old result reader.new }
{
    let mut words = List::with_capacity(alloc, count)?;
    for _ in 0..count {
        if reader.passes_empty_word() {
            words.push(empty_word(alloc))?;
        } else {
            let word = read_word(alloc, image, reader)?;
            words.push(word)?;
        }
    }
    Ok(words)
}
