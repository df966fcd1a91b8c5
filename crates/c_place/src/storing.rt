//! Words written through pointers.
ghost use Rattle.std.specs.Prelude.{◌≡◌, ℕ, List, ◌+◌, ◌*◌, ◌≤◌, ◌<◌, ◌==◌, ◌&&◌, ◌^◌, nat_lt, length, take, drop, map, if◌then◌else◌, IfOk, IfErr, OnOk, IsSome};
ghost use Rattle.std.specs.List.{All};
ghost use Rattle.hy_bits.specs.declared.width.Width;
ghost use Rattle.word_graph.specs.declared.graph.GraphFault;
ghost use Rattle.word_graph.specs.Meaning.{InputsFit};
ghost use Rattle.word_graph.specs.Shape.{constant_at};
ghost use Rattle.word_graph.specs.Size.{graph_size};
ghost use Rattle.word_nodes.specs.Nodes.{Stands, AllStand, Extends, IsFull, worth, worths};
ghost use Rattle.c_place.specs.Aims.{IsPointer, IsTarget, address, aim};
ghost use Rattle.c_place.specs.Boards.{IsBoard, LiesIn, layout, objects_held, pointer_at, widths_at};
ghost use Rattle.c_place.specs.Accesses.{IsEasy, ReadsAs, cell_at, placed, reach, words_written, written_where};

use crate::cells::Cells;
use crate::loading::first_cell;
use crate::selecting::{hit, select};
use crate::targets::{Target, Targets};
use hy_bits::Width;
use std::alloc::Global;
use word_graph::{Graph, GraphFault, Node};
use word_nodes::{conjunction, width_of};

/// The cells from `at` on become `nodes`.
fn place(cells: &mut Vec<Node>, at: usize, nodes: &[Node])
    requires { at + length nodes.now ≤ length cells.old.items }
    ensures { cells.new.items ≡ placed cells.old.items at nodes.now }
{
    for (k, node) in nodes.iter().enumerate() {
        cells[at + k] = *node;
    }
}

/// Where `c` holds, the cells from `at` on become `values`.
fn store_where(
    alloc: Global,
    graph: &mut Graph,
    widths: &[Width],
    c: Node,
    cells: &mut Vec<Node>,
    at: usize,
    values: &[Node],
    region: u32,
) -> Result<(), GraphFault>
    requires condition { Stands graph.old Width.W1 c }
    requires values { AllStand graph.old widths.now values.now }
    requires room { at + length values.now ≤ length cells.old.items }
    requires others { AllStand graph.old widths.now (take (length widths.now) (drop at cells.old.items)) }
    ensures stands { OnOk result ((ws : List Width) → AllStand graph.old ws cells.old.items → take (length widths.now) (drop at ws) ≡ widths.now → AllStand graph.new ws cells.new.items) }
    ensures value { OnOk result ((ins : List ℕ) (ws : List Width) → InputsFit graph.old ins → AllStand graph.old ws cells.old.items → worths graph.new ins cells.new.items ≡ if worth graph.old ins c == 1 then placed (worths graph.old ins cells.old.items) at (worths graph.old ins values.now) else worths graph.old ins cells.old.items) }
    ensures extends { Extends region graph.old graph.new }
    ensures nodes { length graph.new ≤ length graph.old + length widths.now }
    ensures gates { graph_size graph.new ≤ graph_size graph.old + 256 * length widths.now }
    ensures full { IfErr result (IsFull graph.new) }
{
    let others = &cells[at..at + values.len()];
    let chosen = select(alloc, graph, widths, c, values, others, region)?;
    place(cells, at, &chosen);
    Ok(())
}

/// Where `there` holds and the index of `target` is that of an element, its cells from the cell `offset` on become `values`.
fn store_hits(
    alloc: Global,
    graph: &mut Graph,
    widths: &[Width],
    there: Node,
    cells: &mut Vec<Node>,
    target: &Target,
    offset: u32,
    values: &[Node],
    region: u32,
) -> Result<(), GraphFault>
    requires there { Stands graph.old Width.W1 there }
    requires index { Stands graph.old Width.W64 target.now.index }
    requires values { AllStand graph.old widths.now values.now }
    requires offset { offset + length widths.now ≤ target.now.size }
    requires room { target.now.first + target.now.length * target.now.size ≤ length cells.old.items }
    requires cells { (ws : List Width) × AllStand graph.old ws cells.old.items × ((k : ℕ) → k < target.now.length → take (length widths.now) (drop (cell_at target.now offset k) ws) ≡ widths.now) }
    ensures stands { OnOk result ((ws : List Width) → AllStand graph.old ws cells.old.items → ((k : ℕ) → k < target.now.length → take (length widths.now) (drop (cell_at target.now offset k) ws) ≡ widths.now) → AllStand graph.new ws cells.new.items) }
    ensures value { OnOk result ((ins : List ℕ) → InputsFit graph.old ins → worths graph.new ins cells.new.items ≡ if (worth graph.old ins there == 1) && nat_lt (worth graph.old ins target.now.index) target.now.length then placed (worths graph.old ins cells.old.items) (cell_at target.now offset (worth graph.old ins target.now.index)) (worths graph.old ins values.now) else worths graph.old ins cells.old.items) }
    ensures extends { Extends region graph.old graph.new }
    ensures nodes { length graph.new ≤ length graph.old + target.now.length * (3 + length widths.now) }
    ensures gates { graph_size graph.new ≤ graph_size graph.old + target.now.length * (260 + 256 * length widths.now) }
    ensures easy { target.now.length ≡ 1 → IsSome (constant_at graph.old target.now.index.index) → (length graph.new ≤ length graph.old + length widths.now) × (graph_size graph.new ≤ graph_size graph.old + 256 * length widths.now) }
    ensures full { IfErr result (IsFull graph.new) }
    ensures range { OnOk result (target.now.length < 2 ^ 32) }
{
    let _entries = graph.entries();
    match graph.constant_of(target.index) {
        Some(k) => {
            if k < target.length as u64 {
                let at = first_cell(target, offset, k as u32);
                store_where(alloc, graph, widths, there, cells, at, values, region)
            } else {
                Ok(())
            }
        }
        None => {
            for k in 0..target.length {
                let at = first_cell(target, offset, k);
                let here = hit(graph, there, target.index, k, region)?;
                store_where(alloc, graph, widths, here, cells, at, values, region)?;
            }
            Ok(())
        }
    }
}

/// The widths of nodes.
fn widths_of(alloc: Global, graph: &Graph, nodes: &[Node]) -> Result<Vec<Width>, GraphFault>
    requires { All (λ n. n.index < length graph.now) nodes.now }
    ensures widths { IfOk result (λ r. r.items ≡ widths_at graph.now nodes.now) }
    ensures memory { IfErr result (λ e. e ≡ GraphFault.Memory) }
{
    let mut widths = Vec::with_capacity(alloc, nodes.len())?;
    for node in nodes {
        widths.push(width_of(graph, *node))?;
    }
    Ok(widths)
}

impl Cells {
    /// Where `guard` holds and `target` hits an element, its cells from the cell `offset` on become `values`, of the widths `widths`.
    fn store_target(
        &mut self,
        alloc: Global,
        graph: &mut Graph,
        widths: &[Width],
        target: &Target,
        offset: u32,
        guard: Node,
        values: &[Node],
        region: u32,
    ) -> Result<(), GraphFault>
        requires board { IsBoard graph.old self.old }
        requires guard { Stands graph.old Width.W1 guard }
        requires target { IsTarget graph.old target.now }
        requires lies { LiesIn (layout graph.old self.old) target.now }
        requires reads { ReadsAs (layout graph.old self.old) offset widths.now target.now }
        requires values { AllStand graph.old widths.now values.now }
        ensures board { OnOk result (IsBoard graph.new self.new) }
        ensures layout { OnOk result (layout graph.new self.new ≡ layout graph.old self.old) }
        ensures objects { OnOk result ((ins : List ℕ) → InputsFit graph.old ins → objects_held graph.new ins self.new ≡ written_where (worth graph.old ins guard) (objects_held graph.old ins self.old) offset (worths graph.old ins values.now) (aim graph.old ins target.now)) }
        ensures pointers { OnOk result ((k : ℕ) → pointer_at self.new k ≡ pointer_at self.old k) }
        ensures extends { Extends region graph.old graph.new }
        ensures nodes { length graph.new ≤ length graph.old + 1 + target.now.length * (3 + length widths.now) }
        ensures gates { graph_size graph.new ≤ graph_size graph.old + 4 + target.now.length * (260 + 256 * length widths.now) }
        ensures easy { target.now.length ≡ 1 → IsSome (constant_at graph.old target.now.index.index) → (length graph.new ≤ length graph.old + 1 + length widths.now) × (graph_size graph.new ≤ graph_size graph.old + 256 * (length widths.now + 1)) }
        ensures full { IfErr result (IsFull graph.new) }
        ensures range { OnOk result (target.now.length < 2 ^ 32) }
    {
        let there = conjunction(graph, guard, target.guard, region)?;
        let mut cells = self.take_nodes(alloc, target.object);
        store_hits(
            alloc, graph, widths, there, &mut cells, target, offset, values, region,
        )?;
        self.put_nodes(target.object, cells);
        Ok(())
    }

    /// Where `guard` holds, the words `values` are written to what the pointer `to` points to, from the cell `offset` of its element on; nothing
    /// changes where it is null or points outside. It takes time linear in the elements of the targets and the words of each. New nodes are of
    /// the region `region`.
    ///
    /// # Errors
    ///
    /// `NodeLimit` where the graph is full, and `Memory`. The graph may have more nodes, and the cells are of no use.
    pub fn store(
        &mut self,
        alloc: Global,
        graph: &mut Graph,
        to: &Targets,
        offset: u32,
        guard: Node,
        values: &[Node],
        region: u32,
    ) -> Result<(), GraphFault>
        requires board { IsBoard graph.old self.old }
        requires pointer { IsPointer graph.old to.now }
        requires within { All (LiesIn (layout graph.old self.old)) to.now.list.items }
        requires guard { Stands graph.old Width.W1 guard }
        requires stand { All (λ n. n.index < length graph.old) values.now }
        requires widths { All (ReadsAs (layout graph.old self.old) offset (widths_at graph.old values.now)) to.now.list.items }

        // The objects, for all inputs that fit.
        ensures board { OnOk result (IsBoard graph.new self.new) }
        ensures layout { OnOk result (layout graph.new self.new ≡ layout graph.old self.old) }
        ensures objects { OnOk result ((ins : List ℕ) → InputsFit graph.old ins → objects_held graph.new ins self.new ≡ if worth graph.old ins guard == 1 then words_written (objects_held graph.old ins self.old) (address graph.old ins to.now) offset (worths graph.old ins values.now) else objects_held graph.old ins self.old) }
        ensures pointers { OnOk result ((k : ℕ) → pointer_at self.new k ≡ pointer_at self.old k) }

        // The nodes, also after an Err: fewer where the only target's index is a constant.
        ensures extends { Extends region graph.old graph.new }
        ensures nodes { length graph.new ≤ length graph.old + 8 * (reach (length values.now) to.now.list.items + 1) }
        ensures gates { graph_size graph.new ≤ graph_size graph.old + 512 * (reach (length values.now) to.now.list.items + 1) }
        ensures easy { IsEasy graph.old to.now → (length graph.new ≤ length graph.old + (length values.now + 4)) × (graph_size graph.new ≤ graph_size graph.old + 256 * (length values.now + 1)) }
        ensures full { IfErr result (IsFull graph.new) }
    {
        let widths = widths_of(alloc, graph, values)?;
        for target in &to.list {
            self.store_target(alloc, graph, &widths, target, offset, guard, values, region)?;
        }
        Ok(())
    }
}
