//! Where the lines of a log's text stand.

use crate::listing::Listing;
use crate::pages::Pages;

/// In the log of one pass, or in those of several.
#[derive(Drop)]
pub enum Form {
    Listed(Listing),
    Merged(Pages),
}
