// Extend: "10, 4, 5. The bytes lie either in the payload .. or in a range of its own pages; the part found there is hashed without a copy."
#![tactic(auto)]

pub mod extend; // Extend
