//! Words read through pointers.
ghost use Rattle.std.specs.Prelude.{◌≡◌, ℕ, List, ◌+◌, ◌*◌, ◌≤◌, ◌<◌, ◌==◌, ◌^◌, length, take, drop, map, if◌then◌else◌, IfOk, IfErr, IsSome};
ghost use Rattle.std.specs.List.{All};
ghost use Rattle.hy_bits.specs.declared.width.Width;
ghost use Rattle.word_graph.specs.Meaning.{InputsFit};
ghost use Rattle.word_graph.specs.Shape.{constant_at};
ghost use Rattle.word_graph.specs.Size.{graph_size};
ghost use Rattle.word_nodes.specs.Nodes.{Stands, AllStand, Extends, IsFull, worth, worths};
ghost use Rattle.c_place.specs.Aims.{IsPointer, IsTarget, address, aim, is_hit};
ghost use Rattle.c_place.specs.Accesses.{IsEasy, ReadsAs, cell_at, reach, words_read};
ghost use Rattle.c_place.specs.Boards.{IsBoard, LiesIn, layout, objects_held, zero_of};
ghost use Rattle.word_graph.specs.declared.graph.GraphFault;

use crate::cells::Cells;
use crate::selecting::{hit, select};
use crate::targets::{Target, Targets};
use hy_bits::Width;
use std::alloc::Global;
use word_graph::{Graph, GraphFault, Node};

/// The number of the first cell of an access to the element `k` of `target`, from the cell `offset` of it on.
pub fn first_cell(target: &Target, offset: u32, k: u32) -> usize
    requires { k < 2 ^ 32 }
    ensures { result ≡ cell_at target.now offset k }
{
    target.first as usize + k as usize * target.size as usize + offset as usize
}

/// The words `got`, or where `target` hits an element those of that element's cells among the object's `nodes`.
fn load_target(
    alloc: Global,
    graph: &mut Graph,
    nodes: &[Node],
    target: &Target,
    offset: u32,
    widths: &[Width],
    mut got: Vec<Node>,
    region: u32,
) -> Result<Vec<Node>, GraphFault>
    requires target { IsTarget graph.old target.now }
    requires offset { offset + length widths.now ≤ target.now.size }
    requires room { target.now.first + target.now.length * target.now.size ≤ length nodes.now }
    requires got { AllStand graph.old widths.now got.items }
    requires nodes { (k : ℕ) → k < target.now.length → AllStand graph.old widths.now (take (length widths.now) (drop (cell_at target.now offset k) nodes.now)) }
    ensures stands { IfOk result (λ r. AllStand graph.new widths.now r.items) }
    ensures value { IfOk result (λ r. (ins : List ℕ) → InputsFit graph.old ins → worths graph.new ins r.items ≡ if is_hit (aim graph.old ins target.now) then worths graph.old ins (take (length widths.now) (drop (cell_at target.now offset (worth graph.old ins target.now.index)) nodes.now)) else worths graph.old ins got.items) }
    ensures extends { Extends region graph.old graph.new }
    ensures nodes { length graph.new ≤ length graph.old + target.now.length * (3 + length widths.now) }
    ensures gates { graph_size graph.new ≤ graph_size graph.old + target.now.length * (260 + 256 * length widths.now) }
    ensures full { IfErr result (IsFull graph.new) }
    ensures range { target.now.length < 2 ^ 32 }
    ensures same { IsSome (constant_at graph.old target.now.guard.index) → IsSome (constant_at graph.old target.now.index.index) → graph.new ≡ graph.old }
{
    let _entries = graph.entries();
    match graph.constant_of(target.index) {
        Some(k) => {
            if k < target.length as u64 {
                let at = first_cell(target, offset, k as u32);
                let element = &nodes[at..at + widths.len()];
                select(alloc, graph, widths, target.guard, element, &got, region)
            } else {
                Ok(got)
            }
        }
        None => {
            for k in 0..target.length {
                let at = first_cell(target, offset, k);
                let element = &nodes[at..at + widths.len()];
                let here = hit(graph, target.guard, target.index, k, region)?;
                got = select(alloc, graph, widths, here, element, &got, region)?;
            }
            Ok(got)
        }
    }
}

impl Cells {
    /// Words of 0 of the widths.
    fn zeros(&self, alloc: Global, widths: &[Width]) -> Result<Vec<Node>, GraphFault>
        ensures items { IfOk result (λ r. r.items ≡ map (zero_of self.now) widths.now) }
        ensures memory { IfErr result (λ e. e ≡ GraphFault.Memory) }
    {
        let mut zeros = Vec::with_capacity(alloc, widths.len())?;
        for width in widths {
            zeros.push(self.zero(*width))?;
        }
        Ok(zeros)
    }

    /// The words of the widths `widths` that the pointer `from` points to, from the cell `offset` of its element on: zeros where it is null
    /// or points outside. It takes time linear in the elements of the targets and the words of each. New nodes are of the region `region`.
    ///
    /// # Errors
    ///
    /// `NodeLimit` where the graph is full, and `Memory`. The graph may have more nodes.
    pub fn load(
        &self,
        alloc: Global,
        graph: &mut Graph,
        from: &Targets,
        offset: u32,
        widths: &[Width],
        region: u32,
    ) -> Result<Vec<Node>, GraphFault>
        requires board { IsBoard graph.old self.now }
        requires pointer { IsPointer graph.old from.now }
        requires within { All (LiesIn (layout graph.old self.now)) from.now.list.items }
        requires widths { All (ReadsAs (layout graph.old self.now) offset widths.now) from.now.list.items }

        // The words, for all inputs that fit.
        ensures stands { IfOk result (λ r. AllStand graph.new widths.now r.items) }
        ensures words { IfOk result (λ r. (ins : List ℕ) → InputsFit graph.old ins → worths graph.new ins r.items ≡ words_read (objects_held graph.old ins self.now) (address graph.old ins from.now) offset (length widths.now)) }

        // The nodes, also after an Err: none where the only target is there and its index is a constant.
        ensures extends { Extends region graph.old graph.new }
        ensures nodes { length graph.new ≤ length graph.old + 8 * (reach (length widths.now) from.now.list.items + 1) }
        ensures gates { graph_size graph.new ≤ graph_size graph.old + 512 * (reach (length widths.now) from.now.list.items + 1) }
        ensures easy { IsEasy graph.old from.now → graph.new ≡ graph.old }
        ensures full { IfErr result (IsFull graph.new) }
    {
        let mut got = self.zeros(alloc, widths)?;
        for target in &from.list {
            let nodes = self.nodes(target.object);
            got = load_target(alloc, graph, nodes, target, offset, widths, got, region)?;
        }
        Ok(got)
    }
}
