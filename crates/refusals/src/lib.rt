// The numbers that the console says no with, and the text of each.
#![tactic(auto)]

ghost use Rattle.std.specs.Prelude.{◌≡◌};
ghost use Rattle.refusals.specs.Refusals.{number_of, cause_of, NamedBy};
ghost use Rattle.refusals.specs.Texts.{refusal_of, Told};
ghost use Rattle.refusals.specs.Written.{Written};
ghost use Rattle.refusals.specs.declared.NoText.TheVariants.{NoSuchNumber, SpaceTooShort};

#[derive(Clone, Copy, PartialEq, Eq, Debug)]
pub enum Refusal {
    NoSuchPiece = 1,
    NoSuchRoute = 2,
    AlreadyOn = 3,
    NotOn = 4,
    NotNext = 5,
    NotLast = 6,
    StageEmpty = 7,
    NoRoom = 8,
    NoSuchResource = 11,
    RowTooShort = 12,
    HeadCut = 21,
    BodyCut = 22,
    UnfamiliarTag = 23,
    OutOfTurn = 24,
    WrongLength = 25,
    OutOfRange = 26,
    TooMany = 27,
    AfterEnd = 28,
    WrongNext = 31,
    NotInVenue = 32,
    AboveCapacity = 33,
    LineNotUnderstood = 40,
    SpaceTooShort = 41,
    NoSuchNumber = 42,
}

impl Refusal {
    // The cause in words, in ASCII.
    pub fn cause(self) -> &'static [u8]
        ensures { cause_of self ≡ result.now }
    {
        match self {
            Refusal::NoSuchPiece => b"no such piece",
            Refusal::NoSuchRoute => b"no such route",
            Refusal::AlreadyOn => b"piece already on",
            Refusal::NotOn => b"piece not on",
            Refusal::NotNext => b"not a next position",
            Refusal::NotLast => b"not a last position",
            Refusal::StageEmpty => b"stage empty",
            Refusal::NoRoom => b"no room under the rule",
            Refusal::NoSuchResource => b"no such resource",
            Refusal::RowTooShort => b"row shorter than the show",
            Refusal::HeadCut => b"field head cut",
            Refusal::BodyCut => b"field body cut",
            Refusal::UnfamiliarTag => b"unfamiliar tag",
            Refusal::OutOfTurn => b"field out of turn",
            Refusal::WrongLength => b"wrong length",
            Refusal::OutOfRange => b"value out of range",
            Refusal::TooMany => b"too many",
            Refusal::AfterEnd => b"bytes after the end",
            Refusal::WrongNext => b"wrong next position",
            Refusal::NotInVenue => b"resource not in venue",
            Refusal::AboveCapacity => b"need above capacity",
            Refusal::LineNotUnderstood => b"line not understood",
            Refusal::SpaceTooShort => b"space too short",
            Refusal::NoSuchNumber => b"no such number",
        }
    }
}

// The number that the console gives.
impl From<Refusal> for u8 {
    ghost from_gives = { λ refusal n. n ≡ number_of refusal };

    fn from(refusal: Refusal) -> u8 {
        refusal as u8
    }
}

// No refusal has this number.
#[derive(Clone, Copy, PartialEq, Eq, Debug)]
pub struct UnknownNumber(pub u64);

// The one refusal with a number.
impl TryFrom<u64> for Refusal {
    type Error = UnknownNumber;

    ghost try_from_gives = { NamedBy };

    fn try_from(number: u64) -> Result<Refusal, UnknownNumber> {
        match number {
            1 => Ok(Refusal::NoSuchPiece),
            2 => Ok(Refusal::NoSuchRoute),
            3 => Ok(Refusal::AlreadyOn),
            4 => Ok(Refusal::NotOn),
            5 => Ok(Refusal::NotNext),
            6 => Ok(Refusal::NotLast),
            7 => Ok(Refusal::StageEmpty),
            8 => Ok(Refusal::NoRoom),
            11 => Ok(Refusal::NoSuchResource),
            12 => Ok(Refusal::RowTooShort),
            21 => Ok(Refusal::HeadCut),
            22 => Ok(Refusal::BodyCut),
            23 => Ok(Refusal::UnfamiliarTag),
            24 => Ok(Refusal::OutOfTurn),
            25 => Ok(Refusal::WrongLength),
            26 => Ok(Refusal::OutOfRange),
            27 => Ok(Refusal::TooMany),
            28 => Ok(Refusal::AfterEnd),
            31 => Ok(Refusal::WrongNext),
            32 => Ok(Refusal::NotInVenue),
            33 => Ok(Refusal::AboveCapacity),
            40 => Ok(Refusal::LineNotUnderstood),
            41 => Ok(Refusal::SpaceTooShort),
            42 => Ok(Refusal::NoSuchNumber),
            _ => Err(UnknownNumber(number)),
        }
    }
}

// A space is too short: so many bytes are needed.
#[derive(Clone, Copy, PartialEq, Eq, Debug)]
pub struct TooShort {
    pub needed: usize,
}

// Why no text is written.
#[derive(Clone, Copy, PartialEq, Eq, Debug)]
pub enum NoText {
    NoSuchNumber,
    SpaceTooShort(TooShort),
}

// The refusal that says so.
impl From<NoText> for Refusal {
    ghost from_gives = { λ e r. r ≡ refusal_of e };

    fn from(e: NoText) -> Refusal {
        match e {
            NoText::NoSuchNumber => Refusal::NoSuchNumber,
            NoText::SpaceTooShort(_) => Refusal::SpaceTooShort,
        }
    }
}

// Written out, so that clauses can name what is told of either.
impl From<UnknownNumber> for NoText {
    ghost from_gives = { λ e r. r ≡ NoSuchNumber };

    fn from(_: UnknownNumber) -> NoText {
        Self::NoSuchNumber
    }
}

impl From<TooShort> for NoText {
    ghost from_gives = { λ e r. r ≡ SpaceTooShort e };

    fn from(e: TooShort) -> NoText {
        NoText::SpaceTooShort(e)
    }
}

// Puts the content at the front of the space, and answers its length.
fn put(content: &[u8], space: &mut [u8]) -> Result<usize, TooShort>
    ensures { Written result content.now space.old space.new }
{
    let needed = content.len();
    if space.len() < needed {
        return Err(TooShort { needed });
    }
    space[0..needed].copy_from_slice(content);
    Ok(needed)
}

// Writes the number's cause at the front of the space, and answers its length. A number that
// there is not is refused whatever the space.
pub fn text(number: u64, space: &mut [u8]) -> Result<usize, NoText>
    ensures { Told number result space.old space.new }
{
    let refusal = Refusal::try_from(number)?;
    Ok(put(refusal.cause(), space)?)
}

#[cfg(test)]
mod tests {
    use super::*;
    use std::test::Fail;

    static CAUSES: [(u64, &[u8]); 24] = [
        (1, b"no such piece"),
        (2, b"no such route"),
        (3, b"piece already on"),
        (4, b"piece not on"),
        (5, b"not a next position"),
        (6, b"not a last position"),
        (7, b"stage empty"),
        (8, b"no room under the rule"),
        (11, b"no such resource"),
        (12, b"row shorter than the show"),
        (21, b"field head cut"),
        (22, b"field body cut"),
        (23, b"unfamiliar tag"),
        (24, b"field out of turn"),
        (25, b"wrong length"),
        (26, b"value out of range"),
        (27, b"too many"),
        (28, b"bytes after the end"),
        (31, b"wrong next position"),
        (32, b"resource not in venue"),
        (33, b"need above capacity"),
        (40, b"line not understood"),
        (41, b"space too short"),
        (42, b"no such number"),
    ];

    #[test]
    fn writes_each_cause_and_leaves_the_rest(rt: HostRuntime) -> Result<(), Fail> {
        for (number, cause) in &CAUSES {
            let refusal = Refusal::try_from(*number).map_err(|_| "no refusal")?;
            assert_eq!(rt; u64::from(u8::from(refusal)), *number);
            let mut space = [b'.'; 32];
            assert_eq!(rt; text(*number, &mut space)?, cause.len());
            let mut expected = [b'.'; 32];
            assert!(rt; cause.len() <= 32);
            expected[0..cause.len()].copy_from_slice(cause);
            assert_eq!(rt; space, expected);
        }
        Ok(())
    }

    #[test]
    fn wants_just_the_length_of_the_cause(rt: HostRuntime) -> Result<(), Fail> {
        let mut exact = [b'.'; 13];
        assert_eq!(rt; text(1, &mut exact)?, 13);
        assert_eq!(rt; &exact, b"no such piece");
        let mut short = [b'.'; 12];
        let refused = NoText::SpaceTooShort(TooShort { needed: 13 });
        assert_eq!(rt; text(1, &mut short), Err(refused));
        assert_eq!(rt; short, [b'.'; 12]);
        assert_eq!(rt; u8::from(Refusal::from(refused)), 41);
        Ok(())
    }

    #[test]
    fn refuses_other_numbers_in_any_space(rt: HostRuntime) {
        for number in [0, 9, 43, 0x101, 0x1_0001, 0x1_0000_0001] {
            assert_eq!(rt; text(number, &mut []), Err(NoText::NoSuchNumber));
        }
        assert_eq!(rt; u8::from(Refusal::from(NoText::NoSuchNumber)), 42);
    }
}
