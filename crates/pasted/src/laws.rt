//! Laws of the translations. The functions run nothing: their contracts are the laws.

ghost use Rattle.pasted.specs.Laws.{DeviceFeedsLaw, PlainFeedsLaw, PlainLaw};

/// Octets in whose lines nothing is passed over come out of `Tolerant` as they are.
pub fn plain_law()
    ensures { PlainLaw }
{}

/// What comes out of `Tolerant` has as many line feeds as what goes in.
pub fn plain_feeds_law()
    ensures { PlainFeedsLaw }
{}

/// What comes out of `OfDevice` has as many line feeds as what goes in.
pub fn device_feeds_law()
    ensures { DeviceFeedsLaw }
{}
