// The nodes of the used addresses, in order of allocation, with an index from address to place beside
// them, so that no look-up searches the nodes. A table indexed by address would be as long as the
// largest address that a schedule names.
ghost use Rattle.std.specs.Prelude.{◌≡◌, ℕ, ◌==◌, ◌<◌, ◌++◌, ◌∷◌, [], false, not, get_or, set, map, filter, is_ok};
ghost use Rattle.std.specs.Prelude.{◌-◌, if◌then◌else◌, length, take, IfOk};
ghost use Rattle.std.specs.List.{list_any, position};
ghost use Rattle.plc_mem.specs.State.{Node, null_cell, node_of, put_node, fresh_node, cut_node};
ghost use Rattle.plc_mem.specs.Fit.{NodesFit, FieldIn, node_with};

use crate::cell::Cell;
use crate::cells::{cell_or_null, cut_cells};
use indexmap::IndexSet;
use plc_base::NoMemory;
use plc_moves::entry_or;
use std::alloc::Global;
use std::marker::Model;

/// The node of a used address: for each field a cell and a number, of which a pointer field has the
/// cell and a data field the number.
#[derive(Drop)]
pub struct Node {
    address: u32,
    cells: Vec<Cell>,
    values: Vec<u32>,
}

impl Model for Node {
    ghost use Rattle.plc_mem.specs.State.{Node};

    ghost Value = { Node };

    ghost view = { λ n. record { address = n.address; cells = n.cells.items; values = n.values.items } };
}

/// What is put into a field of a node.
#[derive(Clone, Copy)]
pub enum Entry {
    /// A cell, into a pointer field.
    Pointer(Cell),
    /// A number, into a data field.
    Number(u32),
}

impl Node {
    /// A node that was just allocated: pointer fields null, data fields 0.
    fn fresh(alloc: Global, fields: usize, a: u32) -> Result<Node, NoMemory>
        ensures { IfOk result (λ n. n ≡ fresh_node fields a) }
    {
        let null = Cell::null();
        Ok(Node {
            address: a,
            cells: vec![in alloc; null; fields]?,
            values: vec![in alloc; 0; fields]?,
        })
    }

    /// A copy.
    fn copy(&self) -> Result<Node, NoMemory>
        ensures { IfOk result (λ n. n ≡ self.now) }
    {
        Ok(Node {
            address: self.address,
            cells: self.cells.clone()?,
            values: self.values.clone()?,
        })
    }

    /// Puts an entry into a field.
    fn set(&mut self, f: usize, entry: Entry)
        requires { FieldIn self.old f }
        ensures { self.new ≡ node_with self.old f entry }
    {
        match entry {
            Entry::Pointer(c) => self.cells[f] = c,
            Entry::Number(n) => self.values[f] = n,
        }
    }
}

/// Copies of nodes.
fn copy_nodes(alloc: Global, nodes: &[Node]) -> Result<Vec<Node>, NoMemory>
    ensures { IfOk result (λ copy. copy.items ≡ nodes.now) }
{
    let mut copy = Vec::new(alloc);
    for node in nodes {
        copy.push(node.copy()?)?;
    }
    Ok(copy)
}

/// Puts an entry into a field of the node at a place.
fn put_entry(nodes: &mut Vec<Node>, i: usize, f: usize, entry: Entry)
    requires place { i < length nodes.old.items }
    requires field { (n : Node) → FieldIn (get_or nodes.old.items i n) f }
    ensures { (n : Node) → nodes.new.items ≡ set nodes.old.items i (node_with (get_or nodes.old.items i n) f entry) }
{
    nodes[i].set(f, entry);
}

/// Makes the fields invalid that hold an address.
fn cut_nodes(nodes: &mut [Node], a: u32)
    ensures { nodes.new ≡ map (cut_node a) nodes.old }
{
    for node in nodes.iter_mut() {
        cut_cells(&mut node.cells, a);
    }
}

/// Takes the node of an address out.
fn drop_node(nodes: &mut Vec<Node>, a: u32)
    ensures { nodes.new.items ≡ filter (λ n. not (n.address == a)) nodes.old.items }
{
    nodes.retain(|n| n.address != a);
}

/// Takes an address out of the index.
fn drop_address(addresses: &mut IndexSet<u32>, a: u32)
    ensures { addresses.new.keys ≡ filter (λ x. not (x == a)) addresses.old.keys }
{
    addresses.retain(|x| *x != a);
}

/// The nodes of the used addresses. The place of an address in the index is that of its node.
#[derive(Drop)]
pub struct Nodes {
    addresses: IndexSet<u32>,
    nodes: Vec<Node>,
}

impl Model for Nodes {
    ghost use Rattle.std.specs.Prelude.{◌≡◌, List};
    ghost use Rattle.plc_mem.specs.State.{Node};
    ghost use Rattle.plc_mem.specs.Access.{addresses_of};

    ghost Value = { List Node };

    ghost view = { λ n. n.nodes.items };

    ghost invariant = { λ n. n.addresses.keys ≡ addresses_of n.nodes.items };
}

impl Nodes {
    /// No nodes.
    pub fn new(alloc: Global) -> Nodes
        ensures { result ≡ [] }
    {
        Nodes {
            addresses: IndexSet::new(alloc),
            nodes: Vec::new(alloc),
        }
    }

    /// A copy.
    pub fn copy(&self, alloc: Global) -> Result<Nodes, NoMemory>
        ensures { IfOk result (λ copy. copy ≡ self.now) }
    {
        Ok(Nodes {
            addresses: self.addresses.clone()?,
            nodes: copy_nodes(alloc, &self.nodes)?,
        })
    }

    /// The place of the node of an address.
    fn find(&self, a: u32) -> Option<usize>
        ensures { result ≡ position (λ n. n.address == a) self.now }
    {
        self.addresses.get_index_of(&a)
    }

    /// Whether an address has a node.
    pub fn holds(&self, a: u32) -> bool
        ensures { result ≡ list_any (λ n. n.address == a) self.now }
    {
        self.addresses.contains(&a)
    }

    /// What a field holds; null where the address has no node.
    pub fn cell(&self, a: u32, f: usize) -> Cell
        ensures { result ≡ get_or (node_of self.now a).cells f null_cell }
    {
        match self.find(a) {
            Some(i) => {
                let node = &self.nodes[i];
                cell_or_null(&node.cells, f)
            }
            None => Cell::null(),
        }
    }

    /// The number of a data field; 0 where the address has no node.
    pub fn value(&self, a: u32, f: usize) -> u32
        ensures { result ≡ get_or (node_of self.now a).values f 0 }
    {
        match self.find(a) {
            Some(i) => {
                let node = &self.nodes[i];
                entry_or(&node.values, f, 0)
            }
            None => 0,
        }
    }

    /// Puts an entry into a field; nothing where the address has no node.
    pub fn set(&mut self, a: u32, f: usize, entry: Entry)
        requires { (k : ℕ) × (f < k) × NodesFit k self.old }
        ensures { self.new ≡ put_node self.old a (node_with (node_of self.old a) f entry) }
    {
        if let Some(i) = self.find(a) {
            put_entry(&mut self.nodes, i, f, entry);
        }
    }

    /// A fresh node of an address that has none, with so many fields.
    pub fn add(&mut self, alloc: Global, fields: usize, a: u32) -> Result<(), NoMemory>
        requires { list_any (λ n. n.address == a) self.old ≡ false }
        ensures { self.new ≡ (if is_ok result then self.old ++ fresh_node fields a ∷ [] else self.old) }
    {
        let node = Node::fresh(alloc, fields, a)?;
        self.nodes.reserve(1)?;
        self.addresses.insert(a)?;
        self.nodes.push(node)?;
        Ok(())
    }

    /// Takes the node out that was added last, if there is one.
    pub fn remove_last(&mut self)
        ensures { self.new ≡ take (length self.old - 1) self.old }
    {
        let left = self.nodes.len().saturating_sub(1);
        self.addresses.truncate(left);
        self.nodes.truncate(left);
    }

    /// Takes the node of an address out, and makes the fields invalid that hold the address.
    pub fn free(&mut self, a: u32)
        ensures { self.new ≡ map (cut_node a) (filter (λ n. not (n.address == a)) self.old) }
    {
        drop_address(&mut self.addresses, a);
        drop_node(&mut self.nodes, a);
        cut_nodes(&mut self.nodes, a);
    }
}
