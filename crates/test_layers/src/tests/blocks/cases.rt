//! Builds and patches as rows: a tree, and the steps to it.

use super::serving::Stage;
use super::trees::{Named, Shape};
use rt_tree::{Patch, TreeFault};
use rt_values::Serials;
use std::alloc::Global;
use std::process::Abort;

/// A tree, and the steps that lead to it.
type Row = (Shape, &'static str);

// Whether a build of the first tree, and then patches to the others, have just these steps; and
// whether the document is what each block shows.
fn follow(rt: &impl Abort, alloc: Global, first: Row, others: &[Row]) -> bool {
    let mut stage = Stage::new(alloc);
    let mut block = stage.built(rt, alloc, first.0);
    let mut as_told = stage.came(alloc, first.1);
    for (shape, want) in others {
        block = stage.patched(rt, alloc, block, *shape, true);
        let same = stage.came(alloc, *want) && stage.stands(rt, alloc, &block);
        as_told = as_told && same;
    }
    as_told
}

/// A first tree, and the others that it becomes.
struct Case {
    shows: &'static str,
    first: Row,
    others: &'static [Row],
}

static CASES: [Case; 6] = [
    Case {
        shows: "a fragment empties and fills again",
        first: (
            Shape::Texts(&["0", "1", "2"]),
            " drawn #1 0; drawn #2 0.0 0; drawn #3 0.0 0 0; drawn #4 0.1 0; drawn #5 0.1 0 0; drawn #6 0.2 0; drawn #7 0.2 0 0; done;",
        ),
        others: &[
            (
                Shape::Texts(&[]),
                " drawn #8 0 0; replace #2 _#8; remove #4; remove #6; gone #2; gone #3; gone #4; gone #5; gone #6; gone #7; done;",
            ),
            (
                Shape::Texts(&["0", "1"]),
                " drawn #9 0.0 0; drawn #10 0.0 0 0; drawn #11 0.1 0; drawn #12 0.1 0 0; replace #8 (li#9 \"0\"#10) (li#11 \"1\"#12); gone #8; done;",
            ),
        ],
    },
    Case {
        shows: "a fragment grows and shrinks",
        first: (
            Shape::Texts(&["a"]),
            " drawn #1 0; drawn #2 0.0 0; drawn #3 0.0 0 0; done;",
        ),
        others: &[
            (
                Shape::Texts(&["a", "b"]),
                " drawn #4 0.1 0; drawn #5 0.1 0 0; after #2 (li#4 \"b\"#5); done;",
            ),
            (
                Shape::Texts(&["a", "b", "c", "d"]),
                " drawn #6 0.2 0; drawn #7 0.2 0 0; drawn #8 0.3 0; drawn #9 0.3 0 0; after #4 (li#6 \"c\"#7) (li#8 \"d\"#9); done;",
            ),
            (
                Shape::Texts(&["a", "B"]),
                " text #5 \"B\"; remove #6; remove #8; gone #6; gone #7; gone #8; gone #9; done;",
            ),
        ],
    },
    Case {
        shows: "a listener moves between two slots",
        first: (
            Shape::Slots(Named::Nothing, Named::Listener("onclick")),
            " drawn #1 0; done;",
        ),
        others: &[
            (
                Shape::Slots(Named::Listener("onclick"), Named::Nothing),
                " unlisten #1 onclick; listen #1 onclick; done;",
            ),
            (
                Shape::Slots(Named::Text("title", "x"), Named::Nothing),
                " unlisten #1 onclick; attr #1 title=\"x\"; done;",
            ),
            (
                Shape::Slots(Named::Absent("title"), Named::Nothing),
                " attr #1 title none; done;",
            ),
        ],
    },
    Case {
        shows: "another component takes the place of one",
        first: (
            Shape::Scopes(&[1, 2, 3]),
            " drawn #1 0; make; make; make; done;",
        ),
        others: &[(
            Shape::Scopes(&[1, 4, 3]),
            " feed 10; nodes 11; make; replace #110 \"s\"#130 \"s\"#131; remove #111; feed 12; remove 11; done;",
        )],
    },
    Case {
        shows: "items come after the last node of a scope",
        first: (Shape::Rows(&[1]), " drawn #1 0; make; done;"),
        others: &[(
            Shape::Rows(&[1, 2]),
            " feed 10; make; nodes 10; after #101 \"s\"#110 \"s\"#111; done;",
        )],
    },
    Case {
        shows: "values and templates of another kind are replaced",
        first: (
            Shape::TextFirst("a"),
            " drawn #1 0; drawn #2 0 0; drawn #3 0 1; done;",
        ),
        others: &[
            (
                Shape::TextLast("b"),
                " drawn #4 0 0; replace #2 _#4; drawn #5 0 1; replace #3 \"b\"#5; gone #2; gone #3; done;",
            ),
            (
                Shape::Texts(&[]),
                " drawn #6 0; drawn #7 0 0; replace #1 (ul#6 _#7); gone #1; gone #4; gone #5; done;",
            ),
        ],
    },
];

#[test]
fn patches_have_these_steps(rt: HostRuntime) {
    for case in &CASES {
        assert!(rt;
            follow(&rt, rt.alloc(), case.first, case.others),
            "{}",
            case.shows
        );
    }
}

#[test]
fn a_patch_that_nobody_sees_has_no_edits(rt: HostRuntime) {
    let alloc = rt.alloc();
    let mut stage = Stage::new(alloc);
    let block = stage.built(&rt, alloc, Shape::Scopes(&[1, 2]));
    assert!(rt; stage.came(alloc, " drawn #1 0; make; make; done;"));
    let block = stage.patched(&rt, alloc, block, Shape::Texts(&["a"]), false);
    let want =
        " drawn #2 0; drawn #3 0.0 0; drawn #4 0.0 0 0; remove 10; remove 11; gone #1; done;";
    assert!(rt; stage.came(alloc, want));
    let numbers = block.numbers(alloc).expect(&rt, "memory for the numbers");
    assert_eq!(rt; numbers.len(), 3);
    assert_eq!(rt; block.tree().dynamic_nodes.len(), 1);
}

#[test]
fn a_patch_ends_where_the_numbers_do(rt: HostRuntime) {
    let mut ids = Serials::starting(u64::MAX);
    let tree = Shape::Texts(&[]).tree(&rt, rt.alloc());
    let mut patch = Patch::build(rt.alloc(), tree).expect(&rt, "memory for a build");
    match patch.next(rt.alloc(), &mut ids) {
        Ok(_) => assert!(rt; false, "a number past the last one"),
        Err(fault) => assert_eq!(rt; fault, TreeFault::IdsExhausted),
    }
}
