#![tactic(auto)]

// Document 01 whole, as definitions over lists, with what is proved of them: see specs/, one file a part of the document, and
// specs/Claim for demand 3. There is no code here; the crates above cite these definitions in their contracts.
