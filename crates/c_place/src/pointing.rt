//! Objects that are pointers.
ghost use Rattle.std.specs.Prelude.{◌≡◌, ◌≢◌, ℕ, List, [], ◌∷◌, Some, ◌+◌, ◌*◌, ◌≤◌, ◌<◌, ◌==◌, length, set, slice_get, if◌then◌else◌, IfErr, OnOk, IsSome};
ghost use Rattle.std.specs.List.{All};
ghost use Rattle.hy_bits.specs.declared.width.Width.TheVariants.{W1};
ghost use Rattle.word_graph.specs.Meaning.{InputsFit};
ghost use Rattle.word_graph.specs.Size.{graph_size};
ghost use Rattle.word_nodes.specs.Nodes.{Stands, Extends, IsFull, worth};
ghost use Rattle.c_meaning.specs.State.{cell_of};
ghost use Rattle.c_place.specs.Aims.{AreApart, IsPlacedIn, IsPointer, address, places_of};
ghost use Rattle.c_place.specs.Boards.{IsBoard, LiesIn, layout, objects_held, pointer_at, targets_at};
ghost use Rattle.c_place.specs.declared.cells.Held;

use crate::cells::{Cells, Held};
use crate::choosing::choose;
use crate::targets::Targets;
use std::alloc::Global;
use word_graph::{Graph, GraphFault, Node};

impl Cells {
    /// The pointer that the object `object` holds.
    pub fn pointer(&self, object: u32) -> &Targets
        requires { IsSome (pointer_at self.now object) }
        ensures { pointer_at self.now object ≡ Some result.now }
    {
        match self.board.objects.get(object as usize) {
            Some(Held::Pointer(targets)) => targets,
            _ => unreachable!(),
        }
    }

    /// Gives an object a pointer.
    fn put_pointer(&mut self, object: u32, targets: Targets)
        requires { object < length self.old.objects.items }
        ensures objects { self.new.objects.items ≡ set self.old.objects.items object (Held.Pointer targets) }
        ensures zeros { self.new.zeros ≡ self.old.zeros }
    {
        self.board.objects[object as usize] = Held::Pointer(targets);
    }

    /// Where `guard` holds, the object `object`, a pointer, points as `to` does from now on. It takes time linear in the targets of both. New
    /// nodes are of the region `region`.
    ///
    /// # Errors
    ///
    /// `NodeLimit` where the graph is full, and `Memory`. The graph may have more nodes; the cells are as before.
    pub fn set_pointer(
        &mut self,
        alloc: Global,
        graph: &mut Graph,
        object: u32,
        guard: Node,
        to: &Targets,
        region: u32,
    ) -> Result<(), GraphFault>
        requires board { IsBoard graph.old self.old }
        requires pointer { IsSome (pointer_at self.old object) }
        requires guard { Stands graph.old W1 guard }
        requires to { IsPointer graph.old to.now }
        requires within { All (LiesIn (layout graph.old self.old)) to.now.list.items }

        // The objects, for all inputs that fit, and the places of the new targets.
        ensures board { OnOk result (IsBoard graph.new self.new) }
        ensures layout { OnOk result (layout graph.new self.new ≡ layout graph.old self.old) }
        ensures objects { OnOk result ((ins : List ℕ) → InputsFit graph.old ins → objects_held graph.new ins self.new ≡ if worth graph.old ins guard == 1 then set (objects_held graph.old ins self.old) object (cell_of (address graph.old ins to.now) ∷ []) else objects_held graph.old ins self.old) }
        ensures places { OnOk result (All (IsPlacedIn to.now.list.items (targets_at self.old object)) (targets_at self.new object)) }
        ensures apart { OnOk result (AreApart (places_of to.now.list.items) → AreApart (places_of (targets_at self.old object)) → AreApart (places_of (targets_at self.new object))) }
        ensures others { OnOk result ((k : ℕ) → k ≢ object → slice_get self.new.objects.items k ≡ slice_get self.old.objects.items k) }

        // The nodes, also after an Err: fewer where the pointer becomes null.
        ensures extends { Extends region graph.old graph.new }
        ensures nodes { length graph.new ≤ length graph.old + 8 * (length to.now.list.items + length (targets_at self.old object) + 1) }
        ensures gates { graph_size graph.new ≤ graph_size graph.old + 512 * (length to.now.list.items + length (targets_at self.old object) + 1) }
        ensures reset { to.now.list.items ≡ [] → (length graph.new ≤ length graph.old + (length (targets_at self.old object) + 2)) × (graph_size graph.new ≤ graph_size graph.old + 4 * (length (targets_at self.old object) + 2)) }
        ensures full { IfErr result (IsFull graph.new) }
    {
        let before = self.pointer(object);
        let targets = choose(alloc, graph, guard, to, before, region)?;
        self.put_pointer(object, targets);
        Ok(())
    }
}
