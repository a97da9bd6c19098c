//! In which order the attributes and listeners of an element are set.

ghost use Rattle.law_headline.specs.Entries.{AttributesCommute, AttributeGoes, AttributeDiffers, ListenersCommute};

/// Attributes that differ in name or namespace may be set in either order.
pub fn attributes_commute()
    ensures { AttributesCommute }
{}

/// Listeners that differ in name may be set in either order.
pub fn listeners_commute()
    ensures { ListenersCommute }
{}

/// An attribute that was set goes where there was none of its name and namespace.
pub fn attribute_goes()
    ensures { AttributeGoes }
{}

/// Of two attributes of one name and namespace the last one stays.
pub fn attribute_differs()
    ensures { AttributeDiffers }
{}
