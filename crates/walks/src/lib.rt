// The walks over words, lent as they are or as bytes: the word machine to the first report, and the places of a fixed line. What they answer is the
// machine's own definition (machine/specs); here is only how it is done fast.
#![tactic(auto)]

mod pieces; // pieces.rt: in what pieces words are lent
mod in_words; // in_words.rt: a word each
mod in_bytes; // in_bytes.rt: two bytes a word
mod runs; // runs.rt: words that report nothing, taken at once
pub mod walk; // walk.rt: the machine over words, to the first report
pub mod places; // places.rt: the places of a fixed line
