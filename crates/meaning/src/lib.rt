// What the words of the subject mean: specs/ has the definitions, on numbers and lists alone, and proofs/ the laws of those words.
// There is no code here but the types by which all code writes nodes and labels.
#![tactic(auto)]

// A node, by its number.
pub type NodeId = u16;

// A label, by its number: 0 is the letter a, 25 is z.
pub type LabelId = u8;
