// Cases for the reading of table documents: every refusal and every boundary of the format, as rows of tables. Each row
// has a document and the answer that the rules of the format give it. The crate has tests only.
#![tactic(auto)]

#[cfg(test)]
mod action_values;
#[cfg(test)]
mod cuts;
#[cfg(test)]
mod fields;
#[cfg(test)]
mod largest;
#[cfg(test)]
mod plans;
#[cfg(test)]
mod rows;
#[cfg(test)]
mod spans;
#[cfg(test)]
mod statements;
#[cfg(test)]
mod test_values;
#[cfg(test)]
mod whole;
