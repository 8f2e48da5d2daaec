//! Families of functions from one finite set to another.

use hs_list::Items;

/// Functions from members to values, each as the list of its values. Both are numbered from 0, and there are 1 to
/// 256 of each.
///
/// For pairs on inputs there is one function for each state, from symbols to next states. For pairs on outputs
/// there is one function for each symbol, from states to the numbers of outputs.
#[derive(Drop)]
pub(crate) struct Family {
    pub(crate) members: usize,
    pub(crate) values: usize,
    pub(crate) functions: Vec<Items<u16>>,
}
