// The worked examples of the documentation, proved as instances of the definitions.
#![tactic(auto)]

ghost use Rattle.worked.specs.Examples.{Examples};

#[cfg(test)]
mod tests;

// They all hold.
pub fn examples()
    ensures { Examples }
{}
