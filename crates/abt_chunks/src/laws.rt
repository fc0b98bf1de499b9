//! The law of listings, as the contract of a function that does nothing.

ghost use Rattle.abt_chunks.specs.Listing.{ListingsAreRight};

/// A listing shows the chunks of an image in order, and of bytes with a fault the chunks before it, and the fault.
pub fn listings_are_right()
    ensures { ListingsAreRight }
{}
