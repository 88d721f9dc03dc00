// What a scan and every call of the processor mean, and that rearranged tables run alike. Here are definitions, theorems about
// them and the functions whose contracts demand the theorems; the calls themselves stand in the crates above, and their
// contracts cite these definitions. It knows tables, the reading of documents and the meaning of a cell store.
#![tactic(auto)]

pub mod branch;
pub mod promises;
