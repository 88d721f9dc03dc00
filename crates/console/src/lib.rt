// What the console program reads and prints: the document's length in front of its input, and the line that says how the
// document was taken. It knows documents and refusals, and nothing of streams.
#![tactic(auto)]

pub mod load;
