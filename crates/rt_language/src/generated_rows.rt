//! The worked row of the generated application.

ghost use Rattle.rt_language.specs.Generated.{TenRow};

/// Ten rows and ten writes, of which two write what stands there.
pub fn ten_rows()
    ensures { TenRow }
{}
