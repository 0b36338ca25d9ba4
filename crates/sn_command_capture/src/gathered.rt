//! What is kept of a capture while its records are read.

use sn_windows::windows::Windows;

/// The numbering of a capture's windows, how many were closed, and whether a record came.
#[derive(Clone, Copy, Debug)]
pub struct Gathered {
    pub windows: Windows,
    pub closed: u64,
    pub some: bool,
}
