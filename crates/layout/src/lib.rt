// The layout of files, and the laws of reading them. The definitions stand in specs/; the functions here only state laws.
#![tactic(auto)]

ghost use Rattle.layout.specs.Laws.{OnlyFamiliar, OneFault};

// A field with an unfamiliar tag is never passed over.
pub fn only_familiar_tags()
    ensures { OnlyFamiliar }
{}

// A file has at most one fault.
pub fn one_fault()
    ensures { OneFault }
{}
