// The numbers of a line.
ghost use Rattle.std.specs.Prelude.{◌≡◌, ℕ, ◌<◌, ◌≤◌, List, length, MatchOption, ◌≢◌, slice_index};
ghost use Rattle.std.specs.List.{AllByRecursion};
ghost use Rattle.lines.specs.Lines.{Digit, value, Number, Numbers, space};

// The value of at most 5 digits, if they are digits.
fn value_of(digits: &[u8]) -> Option<u32>
    requires { length digits.now ≤ 5 }
    ensures { MatchOption result (AllByRecursion Digit digits.now → ⊥) (λ n. AllByRecursion Digit digits.now × (n ≡ value digits.now)) }
{
    let mut n: u32 = 0;
    // Digit by digit, since the number so far is below ten to their count, which a fold's closure does not know.
    for d in digits {
        if !d.is_ascii_digit() {
            return None;
        }
        n = n * 10 + u32::from(*d - b'0');
    }
    Some(n)
}

// A number of 1 to 5 digits.
pub(crate) fn number(text: &[u8]) -> Option<u32>
    ensures { MatchOption result ((n : ℕ) → Number text.now n → ⊥) (λ n. Number text.now n) }
{
    match text.len() {
        1..=5 => value_of(text),
        _ => None,
    }
}

// Where the first space of a text is.
fn first_space(text: &[u8]) -> Option<usize>
    ensures { MatchOption result (AllByRecursion (λ x. x ≢ space) text.now) (λ i. (i < length text.now) × (slice_index text.now i ≡ space) × ((j : ℕ) → j < i → slice_index text.now j ≢ space)) }
{
    text.iter().position(|x| *x == b' ')
}

// Two numbers with one space between.
pub(crate) fn two_numbers(text: &[u8]) -> Option<(u32, u32)>
    ensures { MatchOption result ((k j : ℕ) → Numbers text.now k j → ⊥) (λ x. Numbers text.now x.0 x.1) }
{
    let i = first_space(text)?;
    let first = number(&text[..i])?;
    let second = number(&text[i + 1..])?;
    Some((first, second))
}
