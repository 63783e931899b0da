ghost use Rattle.trace_text.specs.Reading.{DocumentsPart, FaultsComeLater, OneFault, OneReading, OneSpelling, ReadsOn, TracesAreFaultless};

/// A text that is read up to the line of an entry is read with that entry behind that line.
#[tactic(auto, using(crate::proofs::Readings::reads_on))]
pub fn reads_on()
    ensures { ReadsOn }
{}

/// Two lists of entries that one text spells are equal.
#[tactic(auto, using(crate::proofs::Readings::one_spelling))]
pub fn one_spelling()
    ensures { OneSpelling }
{}

/// A text is read in one way: where it is read as far as some entries and as far as no fewer others, these begin with those.
pub fn one_reading()
    ensures { OneReading }
{}

/// A text has at most one first line that isn't as a trace has it. It comes after each line that was read, and a trace has none.
pub fn one_fault()
    ensures later { FaultsComeLater }
    ensures one { OneFault }
    ensures none { TracesAreFaultless }
{}

/// A document is parted into its trace and its script: no line of a trace is `script`.
pub fn documents_part()
    ensures { DocumentsPart }
{}
