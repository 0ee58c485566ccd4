//! Writing texts to places, in their order.

ghost use Rattle.std.specs.Prelude.{OnOk, IfErr};
ghost use Rattle.std.specs.List.{All};
ghost use Rattle.f2c_outside.specs.Shelf.{IsTarget};
ghost use Rattle.translate_command.specs.WrittenTexts.{AreWritten, AreUnwritten, IsStoppedAt};

use f_tree::Text;
use f2c_outside::shelves::{Place, Shelf};
use plain_data::Items;
use shelf_texts::write_place;

/// Writes to each place its text. An error is the number of the place at which the shelf failed, counted from 0: those behind it are as they were.
fn write_texts<H: Shelf>(shelf: &mut H, places: &[Place], texts: &[Text]) -> Result<(), usize>
    requires { All IsTarget places.now }
    ensures ok { OnOk result (AreWritten places.now texts.now (H.state shelf.old) (H.state shelf.new)) }
    ensures err { IfErr result (λ number. IsStoppedAt places.now texts.now number (H.state shelf.old) (H.state shelf.new)) }
{
    let mut number = 0;
    while number < places.len() && number < texts.len() {
        match write_place(shelf, &places[number], texts[number].as_slice()) {
            Err(_) => return Err(number),
            Ok(()) => number += 1,
        }
    }
    Ok(())
}

/// Writes to each place its text. An error is the place that was being written when the shelf failed.
pub(crate) fn write_translations<H: Shelf>(
    shelf: &mut H,
    places: Items<Place>,
    texts: &[Text],
) -> Result<(), Place>
    requires { All IsTarget places }
    ensures ok { OnOk result (AreWritten places texts.now (H.state shelf.old) (H.state shelf.new)) }
    ensures err { IfErr result (λ place. AreUnwritten places texts.now place (H.state shelf.old) (H.state shelf.new)) }
{
    let mut places = places;
    match write_texts(shelf, places.as_slice(), texts) {
        Err(number) => Err(places.remove(number)),
        Ok(()) => Ok(()),
    }
}
