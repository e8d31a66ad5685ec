// What trees are folded by.
use p8_fold::Consts;
use std::alloc::Global;

/// Folds trees by what names mean, into memory of its own.
#[derive(Clone, Copy)]
pub(crate) struct Folder<'a> {
    pub alloc: Global,
    pub consts: &'a Consts,
}
