// What the words compute: the value that a register gets, and the granules that an access finds. The modules are public because
// `execution` calls their functions.
#![tactic(auto)]

pub mod accesses;
pub mod pointers;
pub mod random_tag;
pub mod tag_load;
