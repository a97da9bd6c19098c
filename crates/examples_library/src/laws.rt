//! What shows of a field, in every application. The function does nothing: what it claims is its
//! contract, which follows of the law that it names.
ghost use Rattle.examples_library.specs.Sentences.{FieldsShow};

use rt_author::one_page_shows;

/// Where every output is current, a field whose body is its page shows what its cell holds.
pub fn fields_show<P, C, Q, V, H, T, E, L>()
    ensures { FieldsShow P C Q V H T E L }
{
    one_page_shows::<C, Q, V, H, T, E, L>();
}
