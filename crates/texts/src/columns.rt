// What stands in the columns of a sheet.
ghost use Rattle.std.specs.Prelude.{◌≡◌, ℕ, List, map, IfOk, String, string_bytes, codes, decimal};
ghost use Rattle.std.specs.List.{zip};
ghost use Rattle.std.specs.declared.alloc.Global.{Global};
ghost use Rattle.texts.specs.Texts.{listing, text_of_nexts, need_text, told, text_of_needs, claim_text, text_of_claims};

use figures::claim::Claim;
use std::alloc::{AllocError, Global};

// What is told of a resource in a column.
trait Told: Copy {
    ghost amount: { Self → ℕ };

    ghost text: { String Global → Self → List ℕ };

    // How much of the resource. Of nothing nothing is told.
    fn amount(self) -> u16
        ensures { result ≡ amount self };

    // The text behind the resource's name.
    fn text(self, heap: Global, name: &String) -> Result<String, AllocError>
        ensures { IfOk result (λ s. string_bytes s ≡ text name.now self) };
}

// A need: the name and the amount.
impl Told for u16 {
    ghost amount = { λ n. n };

    ghost text = { need_text };

    fn amount(self) -> u16 {
        self
    }

    fn text(self, heap: Global, name: &String) -> Result<String, AllocError> {
        format!(in heap; "{name} {self}")
    }
}

// A claim: the name, the amount and the position that sets it.
impl Told for Claim {
    ghost amount = { λ c. c.amount };

    ghost text = { claim_text };

    fn amount(self) -> u16 {
        self.amount
    }

    fn text(self, heap: Global, name: &String) -> Result<String, AllocError> {
        let Claim { amount, position } = self;
        format!(in heap; "{name} {amount} set by {position}")
    }
}

fn listed(heap: Global, texts: &[String], between: &str, none: &str) -> Result<String, AllocError>
    ensures { IfOk result (λ s. string_bytes s ≡ listing none.now between.now (map string_bytes texts.now)) }
{
    if texts.is_empty() {
        String::from_str(heap, none)
    } else {
        texts.join(heap, between)
    }
}

// A text for each amount that is not 0, name by name, so that it is known of each what it says.
fn texts_of<T: Told>(
    heap: Global,
    names: &[String],
    amounts: &[T],
) -> Result<Vec<String>, AllocError>
    ensures { IfOk result (λ v. map string_bytes v.items ≡ told T.amount T.text (zip names.now amounts.now)) }
{
    let mut texts = Vec::new(heap);
    for (name, x) in names.iter().zip(amounts.iter()) {
        if x.amount() > 0 {
            texts.push(x.text(heap, name)?)?;
        }
    }
    Ok(texts)
}

// The column of one position. The allocator is handed on by itself, as everywhere.
fn column<T: Told>(heap: Global, names: &[String], amounts: &[T]) -> Result<String, AllocError>
    ensures { IfOk result (λ s. string_bytes s ≡ listing (codes "nothing") (codes ", ") (told T.amount T.text (zip names.now amounts.now))) }
{
    let texts = texts_of(heap, names, amounts)?;
    listed(heap, texts.as_slice(), ", ", "nothing")
}

// Text by text, so that it is known of each which number it says.
fn decimals(heap: Global, numbers: &[u8]) -> Result<Vec<String>, AllocError>
    ensures { IfOk result (λ v. map string_bytes v.items ≡ map decimal numbers.now) }
{
    let mut texts = Vec::new(heap);
    for number in numbers {
        texts.push(number.to_string(heap)?)?;
    }
    Ok(texts)
}

pub fn next_text(heap: Global, nexts: &[u8]) -> Result<String, AllocError>
    ensures { IfOk result (λ s. string_bytes s ≡ text_of_nexts nexts.now) }
{
    let numbers = decimals(heap, nexts)?;
    listed(heap, numbers.as_slice(), " ", "last")
}

pub fn needs_text(heap: Global, names: &[String], amounts: &[u16]) -> Result<String, AllocError>
    ensures { IfOk result (λ s. string_bytes s ≡ text_of_needs (zip names.now amounts.now)) }
{
    column(heap, names, amounts)
}

pub fn claims_text(heap: Global, names: &[String], claims: &[Claim]) -> Result<String, AllocError>
    ensures { IfOk result (λ s. string_bytes s ≡ text_of_claims (zip names.now claims.now)) }
{
    column(heap, names, claims)
}
