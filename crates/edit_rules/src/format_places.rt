//! Places in formats, and where a character leads from each (ANSI X3.9-1978, sections 13.1, 13.2 and 13.5).
ghost use Rattle.std.specs.Prelude.{◌≡◌, ℕ, ◌==◌, IsTrue};
ghost use Rattle.edit_meaning.specs.FormatGrammar.{Wanted, Behind, may_close, takes_comma, takes_item, is_from};
ghost use Rattle.edit_meaning.specs.FormatTexts.{Outside, At, Before, Least, To, Closes, Made, most, item, opens, same, only_if, in_number, between, ended, in_text_of, counted, scaled, wide, behind_number, behind_a, behind_b, behind_s, behind_t, at_start, first_digit, next_digit, outside, outside_text, in_text, behind_quote, verbatim, moved};
ghost use Rattle.edit_rules.specs.FormatPlaces.{sign_in, joint_in, kind_in, place_in, mode_in, is_repeated, has_length, Leads, shape, shape_in};

use crate::format_signs::{Sign, read_sign};

/// What stands before a place in a list of items.
#[derive(Clone, Copy)]
pub enum Joint {
    /// The left parenthesis of the format.
    Opened,
    /// A comma or the left parenthesis of a group: an item has to follow.
    Wanted,
    /// A slash, a colon or a scale factor: a comma may be left out.
    Free,
    /// Another item.
    Behind,
}

/// What a number is.
#[derive(Clone, Copy)]
pub enum Kind {
    /// A repeat, the n of nX and nH, or an unsigned scale factor.
    Count,
    /// A scale factor with a sign.
    Signed,
    /// The w of I.
    IntWidth,
    /// The m of I, with its w.
    Least(u16),
    /// The w of L.
    LogicalWidth,
    /// The w of A.
    TextWidth,
    /// The n of T, TL and TR.
    Column,
    Left,
    Right,
}

/// A place outside texts.
#[derive(Clone, Copy)]
pub enum Place {
    Start,
    At(Joint),
    Before(Kind),
    Inside(Kind, u16),
    BehindA,
    BehindB,
    BehindS,
    BehindT,
}

/// A place in a format.
#[derive(Clone, Copy)]
pub enum Mode {
    Outside(Place),
    /// In a text in apostrophes, which has characters or has none yet.
    InText(bool),
    /// Behind an apostrophe in it.
    BehindQuote(bool),
    /// In the text of nH, before a character and so many others.
    Verbatim(u16),
}

/// Where a character leads: nowhere, to a place in the same list, into a group, or to the end of the list.
#[derive(Clone, Copy)]
pub enum Move {
    Refused,
    To(Mode),
    Opens,
    Closes,
}

/// Where a character leads from a place so deep in parentheses.
pub fn step(depth: usize, mode: Mode, character: u8) -> Move
    ensures { shape_in result ≡ shape (moved depth (mode_in mode) character) }
{
    match mode {
        Mode::Outside(place) => step_outside(depth, place, character),
        Mode::InText(some) => step_in_text(some, character),
        Mode::BehindQuote(some) => step_behind_quote(depth, some, character),
        Mode::Verbatim(more) => step_verbatim(more),
    }
}

/// Outside texts blanks mean nothing.
fn step_outside(depth: usize, place: Place, character: u8) -> Move
    ensures { shape_in result ≡ shape (outside_text depth (place_in place) character) }
{
    if character == b' ' {
        Move::To(Mode::Outside(place))
    } else {
        from_place(depth, place, read_sign(character))
    }
}

/// A character inside a text in apostrophes.
fn step_in_text(some: bool, character: u8) -> Move
    ensures { shape_in result ≡ shape (in_text (character == 39) some character) }
{
    if character == b'\'' {
        Move::To(Mode::BehindQuote(some))
    } else {
        Move::To(Mode::InText(true))
    }
}

#[tactic(auto, using(crate::proofs::FormatMoves::shape_behind))]
/// With a second apostrophe it is a character of the text, and else it ends the text.
fn step_behind_quote(depth: usize, some: bool, character: u8) -> Move
    ensures { shape_in result ≡ shape (behind_quote (character == 39) some depth character) }
{
    if character == b'\'' {
        Move::To(Mode::InText(true))
    } else if some {
        step_outside(depth, Place::At(Joint::Behind), character)
    } else {
        Move::Refused
    }
}

/// A character of the text behind `nH`.
fn step_verbatim(more: u16) -> Move
    ensures { (c : ℕ) → shape_in result ≡ shape (verbatim more c) }
{
    if more == 0 {
        Move::To(Mode::Outside(Place::At(Joint::Behind)))
    } else {
        Move::To(Mode::Verbatim(more - 1))
    }
}

/// A character where nothing is open but parentheses.
fn from_place(depth: usize, place: Place, sign: Sign) -> Move
    ensures { shape_in result ≡ shape (outside depth (place_in place) (sign_in sign)) }
{
    match place {
        Place::Start => from_start(sign),
        Place::At(joint) => from_joint(depth, joint, sign),
        Place::Before(kind) => from_first(kind, sign),
        Place::Inside(kind, number) => from_digit(depth, kind, number, sign),
        Place::BehindA => from_a(depth, sign),
        Place::BehindB => from_b(sign),
        Place::BehindS => from_s(depth, sign),
        Place::BehindT => from_t(sign),
    }
}

/// The first character of a format.
fn from_start(sign: Sign) -> Move
    ensures { shape_in result ≡ shape (at_start (sign_in sign)) }
{
    match sign {
        Sign::LeftParen => Move::To(Mode::Outside(Place::At(Joint::Opened))),
        _ => Move::Refused,
    }
}

/// A character between items.
fn from_joint(depth: usize, joint: Joint, sign: Sign) -> Move
    ensures { shape_in result ≡ shape (between depth (joint_in joint) (sign_in sign)) }
{
    match sign {
        Sign::RightParen => close(joint),
        Sign::Comma => part(joint),
        Sign::Slash | Sign::Colon => Move::To(Mode::Outside(Place::At(Joint::Free))),
        _ => begin(depth, joint, sign),
    }
}

/// A closing parenthesis.
fn close(joint: Joint) -> Move
    ensures { shape_in result ≡ shape (only_if (may_close (joint_in joint)) (Closes same)) }
{
    match joint {
        Joint::Wanted => Move::Refused,
        Joint::Opened | Joint::Free | Joint::Behind => Move::Closes,
    }
}

/// The start of a part behind a joint.
fn part(joint: Joint) -> Move
    ensures { shape_in result ≡ shape (only_if (takes_comma (joint_in joint)) (To (Outside (At Wanted)) same)) }
{
    match joint {
        Joint::Opened | Joint::Wanted => Move::Refused,
        Joint::Free | Joint::Behind => Move::To(Mode::Outside(Place::At(Joint::Wanted))),
    }
}

/// The character that begins a part.
fn begin(depth: usize, joint: Joint, sign: Sign) -> Move
    ensures { shape_in result ≡ shape (only_if (takes_item (joint_in joint)) (item depth (sign_in sign))) }
{
    match joint {
        Joint::Behind => Move::Refused,
        Joint::Opened | Joint::Wanted | Joint::Free => first(depth, sign),
    }
}

/// The first character of an item.
fn first(depth: usize, sign: Sign) -> Move
    ensures { shape_in result ≡ shape (item depth (sign_in sign)) }
{
    match sign {
        Sign::LeftParen => open(depth),
        Sign::Quote => Move::To(Mode::InText(false)),
        Sign::PlusMinus => before(Kind::Signed),
        Sign::Digit(digit) => in_bounds(Kind::Count, digit as u32),
        Sign::LetterA => Move::To(Mode::Outside(Place::BehindA)),
        Sign::LetterB => Move::To(Mode::Outside(Place::BehindB)),
        Sign::LetterI => before(Kind::IntWidth),
        Sign::LetterL => before(Kind::LogicalWidth),
        Sign::LetterS => Move::To(Mode::Outside(Place::BehindS)),
        Sign::LetterT => Move::To(Mode::Outside(Place::BehindT)),
        _ => Move::Refused,
    }
}

/// A group, at most 20 deep.
fn open(depth: usize) -> Move
    ensures { (repeat : ℕ) → shape_in result ≡ shape (opens depth repeat) }
{
    if depth < 20 {
        Move::Opens
    } else {
        Move::Refused
    }
}

/// The place before the number of a part.
fn before(kind: Kind) -> Move
    ensures { shape_in result ≡ Leads (Outside (Before (kind_in kind))) }
{
    Move::To(Mode::Outside(Place::Before(kind)))
}

/// The greatest number that a part of this kind may have.
fn greatest(kind: Kind) -> u16
    ensures { result ≡ most (kind_in kind) }
{
    match kind {
        Kind::Count => 32_767,
        Kind::Signed => 127,
        Kind::Least(width) => width,
        Kind::IntWidth
        | Kind::LogicalWidth
        | Kind::TextWidth
        | Kind::Column
        | Kind::Left
        | Kind::Right => 1_024,
    }
}

/// In a number, which is no greater than it may be.
fn in_bounds(kind: Kind, number: u32) -> Move
    ensures { shape_in result ≡ shape (in_number (kind_in kind) number) }
{
    if number <= greatest(kind) as u32 {
        Move::To(Mode::Outside(Place::Inside(kind, number as u16)))
    } else {
        Move::Refused
    }
}

/// The first character of a number.
fn from_first(kind: Kind, sign: Sign) -> Move
    ensures { shape_in result ≡ shape (first_digit (kind_in kind) (sign_in sign)) }
{
    match sign {
        Sign::Digit(digit) => in_bounds(kind, digit as u32),
        _ => Move::Refused,
    }
}

/// A character behind a digit.
fn from_digit(depth: usize, kind: Kind, number: u16, sign: Sign) -> Move
    ensures { shape_in result ≡ shape (next_digit depth (kind_in kind) number (sign_in sign)) }
{
    match sign {
        Sign::Digit(digit) => in_bounds(kind, number as u32 * 10 + digit as u32),
        _ => from_number(depth, kind, number, sign),
    }
}

/// The character behind a number.
fn from_number(depth: usize, kind: Kind, number: u16, sign: Sign) -> Move
    ensures { shape_in result ≡ shape (behind_number depth (kind_in kind) number (sign_in sign)) }
{
    match kind {
        Kind::Count => from_count(depth, number, sign),
        Kind::Signed => from_scale(number, sign),
        Kind::IntWidth => from_width(depth, number, sign),
        Kind::Least(width) => settle(number <= width, depth, sign),
        Kind::LogicalWidth | Kind::TextWidth | Kind::Column | Kind::Left | Kind::Right => {
            settle(is_width(number), depth, sign)
        }
    }
}

/// Whether a number may be a width.
fn is_width(number: u16) -> bool
    ensures { result ≡ is_from 1 1024 number }
{
    1 <= number && number <= 1_024
}

/// Whether a number may be a repeat count.
fn is_repeat(number: u16) -> bool
    ensures { result ≡ is_from 1 32767 number }
{
    1 <= number && number <= 32_767
}

#[tactic(auto, using(crate::proofs::FormatMoves::shape_behind))]
/// The character behind an item, which is in form or not.
fn settle(well: bool, depth: usize, sign: Sign) -> Move
    ensures { (change : Made → Made) → shape_in result ≡ shape (ended well change depth (sign_in sign)) }
{
    if well {
        from_joint(depth, Joint::Behind, sign)
    } else {
        Move::Refused
    }
}

/// The character behind a number in front of an item.
fn from_count(depth: usize, number: u16, sign: Sign) -> Move
    ensures { shape_in result ≡ shape (counted depth number (sign_in sign)) }
{
    match sign {
        Sign::LetterH | Sign::LetterX => from_length(number, sign),
        Sign::LetterP => from_scale(number, sign),
        Sign::LeftParen | Sign::Slash | Sign::LetterA | Sign::LetterI | Sign::LetterL => {
            from_repeat(depth, number, sign)
        }
        _ => Move::Refused,
    }
}

/// A character behind a repeat count.
fn from_repeat(depth: usize, number: u16, sign: Sign) -> Move
    requires { IsTrue (is_repeated (sign_in sign)) }
    ensures { shape_in result ≡ shape (counted depth number (sign_in sign)) }
{
    if !is_repeat(number) {
        return Move::Refused;
    }
    match sign {
        Sign::LeftParen => open(depth),
        Sign::Slash => Move::To(Mode::Outside(Place::At(Joint::Free))),
        Sign::LetterA => Move::To(Mode::Outside(Place::BehindA)),
        Sign::LetterI => before(Kind::IntWidth),
        _ => before(Kind::LogicalWidth),
    }
}

/// The `H` behind a length, and what else may stand there.
fn from_length(number: u16, sign: Sign) -> Move
    requires { IsTrue (has_length (sign_in sign)) }
    ensures { (depth : ℕ) → shape_in result ≡ shape (counted depth number (sign_in sign)) }
{
    if !is_width(number) {
        return Move::Refused;
    }
    match sign {
        Sign::LetterH => Move::To(Mode::Verbatim(number - 1)),
        _ => Move::To(Mode::Outside(Place::At(Joint::Behind))),
    }
}

/// A character behind a signed scale factor.
fn from_scale(number: u16, sign: Sign) -> Move
    ensures { shape_in result ≡ shape (scaled number (sign_in sign)) }
{
    match sign {
        Sign::LetterP if number <= 127 => Move::To(Mode::Outside(Place::At(Joint::Free))),
        _ => Move::Refused,
    }
}

/// A character behind a width.
fn from_width(depth: usize, width: u16, sign: Sign) -> Move
    ensures { shape_in result ≡ shape (wide depth width (sign_in sign)) }
{
    match sign {
        Sign::Period => point(width),
        _ => settle(is_width(width), depth, sign),
    }
}

/// The point behind a width.
fn point(width: u16) -> Move
    ensures { shape_in result ≡ shape (only_if (is_from 1 1024 width) (To (Outside (Before (Least width))) same)) }
{
    if is_width(width) {
        before(Kind::Least(width))
    } else {
        Move::Refused
    }
}

/// A character behind `A`.
fn from_a(depth: usize, sign: Sign) -> Move
    ensures { shape_in result ≡ shape (behind_a depth (sign_in sign)) }
{
    match sign {
        Sign::Digit(digit) => in_bounds(Kind::TextWidth, digit as u32),
        _ => settle(true, depth, sign),
    }
}

/// A character behind `B`.
fn from_b(sign: Sign) -> Move
    ensures { shape_in result ≡ shape (behind_b (sign_in sign)) }
{
    match sign {
        Sign::LetterN | Sign::LetterZ => Move::To(Mode::Outside(Place::At(Joint::Behind))),
        _ => Move::Refused,
    }
}

/// A character behind `S`.
fn from_s(depth: usize, sign: Sign) -> Move
    ensures { shape_in result ≡ shape (behind_s depth (sign_in sign)) }
{
    match sign {
        Sign::LetterS | Sign::LetterP => Move::To(Mode::Outside(Place::At(Joint::Behind))),
        _ => settle(true, depth, sign),
    }
}

/// A character behind `T`.
fn from_t(sign: Sign) -> Move
    ensures { shape_in result ≡ shape (behind_t (sign_in sign)) }
{
    match sign {
        Sign::Digit(digit) => in_bounds(Kind::Column, digit as u32),
        Sign::LetterL => before(Kind::Left),
        Sign::LetterR => before(Kind::Right),
        _ => Move::Refused,
    }
}
