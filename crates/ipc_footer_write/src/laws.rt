//! A theorem about files that end with a footer. The function does nothing.
ghost use Rattle.ipc_footer_write.specs.Footers.{FooterLaw};

/// A file that ends with a footer has the metadata of the footer.
///
/// The footer is followed by its length and `ARROW1`.
pub fn files_with_footers()
    ensures { FooterLaw }
{}
