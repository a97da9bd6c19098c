//! Serves the steps of patches, as a layer above does.

ghost use Rattle.std.specs.Prelude.{◌≡◌};
ghost use Rattle.rt_tree.specs.Awaits.{awaited, awaits, no_answer};

use super::printing::{print_nodes, print_step};
use super::trees::{Numbers, Shape, push, text};
use rt_edits::{DocKind, DocNode, Document, Edit};
use rt_tree::{Block, Patch, PatchStep};
use rt_values::{ElementId, List, ScopeId, Serials};
use std::alloc::Global;
use std::mem;
use std::process::Abort;

/// What the patches of one block lead to.
#[derive(Drop)]
pub(crate) struct Stage {
    pub(crate) ids: Serials,
    document: Document,
    /// The steps since it was looked at.
    told: String,
    /// The number of the next scope.
    scope: u64,
    /// Whether the last step was the end of a patch.
    ended: bool,
}

// A scope with the number `n` shows the texts `#10 n` and `#10 n + 1`.
fn nodes_of(rt: &impl Abort, alloc: Global, scope: u64) -> List<DocNode> {
    let mut nodes = List::new(alloc);
    for number in 0..2 {
        let kind = DocKind::Text(text(rt, alloc, "s"));
        let id = ElementId(scope.saturating_mul(10).saturating_add(number));
        push(rt, &mut nodes, DocNode { id, kind });
    }
    nodes
}

// What a block shows.
fn shown(rt: &impl Abort, alloc: Global, block: &Block<Numbers>) -> List<DocNode> {
    let scopes = block.children(alloc).expect(rt, "memory for the scopes");
    let mut children = List::new(alloc);
    for scope in scopes.as_slice() {
        push(rt, &mut children, nodes_of(rt, alloc, scope.0));
    }
    assert!(rt; children.len() == scopes.len());
    block
        .nodes(alloc, children)
        .expect(rt, "memory for the nodes")
}

fn printed(rt: &impl Abort, alloc: Global, nodes: &[DocNode]) -> String {
    let mut out = String::new(alloc);
    assert!(rt; print_nodes(&mut out, nodes).is_ok());
    out
}

impl Stage {
    /// An empty document. Numbers of nodes are drawn from 1 on, and those of scopes from 10 on.
    pub(crate) fn new(alloc: Global) -> Stage {
        Stage {
            ids: Serials::starting(1),
            document: Document::empty(alloc),
            told: String::new(alloc),
            scope: 10,
            ended: false,
        }
    }

    /// Does one step.
    fn turn(&mut self, rt: &impl Abort, alloc: Global, patch: &mut Patch<Numbers>)
        requires { awaited patch.now.phase ≡ no_answer }
        ensures { awaited patch.exit.now.phase ≡ no_answer }
    {
        let step = patch.next(alloc, &mut self.ids).expect(rt, "a step");
        assert!(rt; print_step(&mut self.told, &step).is_ok());
        self.answer(rt, alloc, patch, step);
    }

    /// Makes an edit, or gives what is asked for.
    fn answer(
        &mut self,
        rt: &impl Abort,
        alloc: Global,
        patch: &mut Patch<Numbers>,
        step: PatchStep<Numbers>,
    )
        requires { awaited patch.now.phase ≡ awaits step }
        ensures { awaited patch.exit.now.phase ≡ no_answer }
    {
        match step {
            PatchStep::Make(_) => {
                let scope = self.scope;
                self.scope = scope.saturating_add(1);
                let given = patch.give(ScopeId(scope), nodes_of(rt, alloc, scope));
                assert!(rt; given.is_ok());
            }
            PatchStep::Nodes(scope) => {
                let given = patch.give(scope, nodes_of(rt, alloc, scope.0));
                assert!(rt; given.is_ok());
            }
            PatchStep::Edit(edit) => assert!(rt; self.document.apply(alloc, &edit).is_ok()),
            PatchStep::Feed { .. } => {}
            PatchStep::Remove(_) => {}
            PatchStep::Drawn { .. } => {}
            PatchStep::Gone { .. } => {}
            PatchStep::Done => self.ended = true,
        }
    }

    /// Does all steps of a patch, at most 64.
    fn run(&mut self, rt: &impl Abort, alloc: Global, mut patch: Patch<Numbers>) -> Block<Numbers>
        requires { awaited patch.phase ≡ no_answer }
    {
        self.ended = false;
        for _ in 0..64 {
            if !self.ended {
                self.turn(rt, alloc, &mut patch);
            }
        }
        assert!(rt; patch.is_done());
        patch.finish()
    }

    /// Builds a first tree and shows it.
    pub(crate) fn built(&mut self, rt: &impl Abort, alloc: Global, shape: Shape) -> Block<Numbers> {
        let tree = shape.tree(rt, alloc);
        let patch = Patch::build(alloc, tree).expect(rt, "memory for a build");
        let block = self.run(rt, alloc, patch);
        let append = Edit::AppendChildren {
            id: ElementId(0),
            nodes: shown(rt, alloc, &block),
        };
        assert!(rt; self.document.apply(alloc, &append).is_ok());
        block
    }

    /// Puts a new tree in the place of a block.
    pub(crate) fn patched(
        &mut self,
        rt: &impl Abort,
        alloc: Global,
        block: Block<Numbers>,
        shape: Shape,
        visible: bool,
    ) -> Block<Numbers> {
        let tree = shape.tree(rt, alloc);
        let patch = Patch::over(alloc, block, tree, visible).expect(rt, "memory for a patch");
        self.run(rt, alloc, patch)
    }

    /// Whether just these steps came since it was looked at.
    pub(crate) fn came(&mut self, alloc: Global, want: &str) -> bool {
        let told = mem::replace(&mut self.told, String::new(alloc));
        told.as_str() == want
    }

    /// Whether the document shows what a block does.
    pub(crate) fn stands(&self, rt: &impl Abort, alloc: Global, block: &Block<Numbers>) -> bool {
        let nodes = shown(rt, alloc, block);
        let want = printed(rt, alloc, nodes.as_slice());
        let text = printed(rt, alloc, self.document.nodes());
        text.as_str() == want.as_str()
    }
}
