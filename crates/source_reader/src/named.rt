//! The files that are named, up to the first that has a fault of cards.

ghost use Rattle.std.specs.Prelude.{IfOk};
ghost use Rattle.source_reader.specs.SourceReading.{IsNamed, AreFilesRead};

use crate::mentions::{first_mentions, mentioned_in_files};
use cards::{Cards, read_cards};
use f_tree::{Fail, Options, Refusal, Text};
use plain_data::Items;
use std::alloc::{AllocError, Global};

/// The files that are named: the cards of those before the first that has a fault of its cards, the first fault of that one, and the names of
/// the files that those before it include.
#[derive(Drop)]
pub struct NamedFiles {
    pub(crate) files: Items<Cards>,
    pub(crate) refused: Option<Refusal>,
    pub(crate) names: Items<Text>,
}

impl NamedFiles {
    ghost use Rattle.std.specs.Prelude.{◌≡◌};

    /// The names of the files that are included, each once, in the order in which they are first mentioned. Where a file has a fault of its
    /// cards, no file is named that only it or a file behind it mentions.
    pub fn names(&self) -> &[Text]
        ensures { result.now ≡ self.now.names }
    {
        self.names.as_slice()
    }
}

/// The files that are named, in their order.
///
/// # Errors
///
/// Want of memory.
pub fn read_files(
    alloc: Global,
    files: &[Text],
    options: &Options,
) -> Result<NamedFiles, AllocError>
    ensures { IfOk result (IsNamed options.now files.now) }
{
    let FilesRead { cards, refused } = cards_of_files(alloc, files, options)?;
    let mentions = mentioned_in_files(alloc, cards.as_slice())?;
    let names = first_mentions(alloc, mentions.as_slice())?;
    Ok(NamedFiles {
        files: cards,
        refused,
        names,
    })
}

/// The cards of files, up to the first that has a fault, and that fault.
#[derive(Drop)]
struct FilesRead {
    cards: Items<Cards>,
    refused: Option<Refusal>,
}

/// The cards of files, up to the first that has a fault.
fn cards_of_files(alloc: Global, files: &[Text], options: &Options) -> Result<FilesRead, AllocError>
    ensures { IfOk result (λ read. AreFilesRead options.now.long_cards files.now read.cards read.refused) }
{
    let mut cards = Items::new(alloc);
    for (file, bytes) in files.iter().enumerate() {
        match read_cards(alloc, bytes.as_slice(), file, options) {
            Ok(more) => cards.push(more)?,
            Err(Fail::Refused(refusal)) => {
                return Ok(FilesRead {
                    cards,
                    refused: Some(refusal),
                });
            }
            Err(Fail::NoMemory) => return Err(AllocError),
        }
    }
    Ok(FilesRead {
        cards,
        refused: None,
    })
}
