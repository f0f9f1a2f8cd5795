//! For each item of a list, the nearest earlier one that has its label.

ghost use Rattle.std.specs.Prelude.{◌≡◌, ◌<◌, ◌≤◌, ◌-◌, ◌^◌, ℕ, ◌++◌, ◌∷◌, [], IfOk, OnErr, OnOk, bit_and, length, replicate, slice_index, take};
ghost use Rattle.rawk_keys.specs.Nearest.{IsNearest};
ghost use Rattle.rawk_keys.specs.Linked.{IsLinked, IsPast, labels, earliers};

use std::alloc::{AllocError, Global};
use std::marker::Model;

/// A label, and where the chain goes on: one above the number of an earlier link, or 0 at the chain's end. Both are below 2^32, so that a link takes 8 bytes.
#[derive(Clone, Copy)]
pub struct Link {
    pub label: u32,
    pub earlier: u32,
}

/// A list of labels, in which the newest item with a label is found without looking at them all.
///
/// The items whose labels have the same low bits stand in one chain, the newest first; `heads` says where each chain begins.
#[derive(Drop)]
pub struct Chains {
    links: Vec<Link>,
    heads: Vec<u32>,
}

impl Model for Chains {
    ghost use Rattle.std.specs.Prelude.{List, ℕ, length};

    ghost Value = { List ℕ };

    ghost use Rattle.rawk_keys.specs.Linked.{IsLinked, labels, earliers};

    ghost view = { λ c. labels c.links.items };

    ghost invariant = { λ c. IsLinked (length c.heads.items) (labels c.links.items) (earliers c.links.items) c.heads.items (length c.links.items) };
}

impl Chains {
    /// No items. It takes no memory.
    pub fn new(alloc: Global) -> Self
        ensures { result ≡ [] }
    {
        Chains {
            links: Vec::new(alloc),
            heads: Vec::new(alloc),
        }
    }

    /// How many items there are.
    pub fn len(&self) -> usize
        ensures { result ≡ length self.now }
    {
        self.links.len()
    }

    /// The label of an item.
    pub fn label(&self, item: usize) -> usize
        requires { item < length self.now }
        ensures { result ≡ slice_index self.now item }
    {
        self.links[item].label as usize
    }

    /// The newest item that has the label.
    pub fn latest(&self, label: usize) -> Option<usize>
        ensures { IsNearest self.now (length self.now) label result }
    {
        latest_link(&self.links, &self.heads, label)
    }

    /// The nearest earlier item that has the same label as this one.
    pub fn earlier(&self, item: usize) -> Option<usize>
        requires { item < length self.now }
        ensures { IsNearest self.now item (slice_index self.now item) result }
    {
        earlier_link(&self.links, &self.heads, item)
    }

    /// How many chains there are.
    pub fn chain_count(&self) -> usize {
        self.heads.len()
    }

    /// Adds an item. It fails where memory is refused, and where 32 bits do not hold the label or how many items there are; then nothing has changed.
    #[inline(always)]
    pub fn push(&mut self, alloc: Global, label: usize) -> Result<(), AllocError>
        ensures did { OnOk result (self.new ≡ self.old ++ label ∷ []) }
        ensures err { OnErr result (self.new ≡ self.old) }
    {
        push_label(alloc, &mut self.links, &mut self.heads, label)
    }

    /// Drops the newest item. It takes no memory.
    pub fn drop_newest(&mut self)
        requires { 0 < length self.old }
        ensures { self.new ≡ take (length self.old - 1) self.old }
    {
        drop_link(&mut self.links, &mut self.heads);
    }

    /// Makes at least `count` chains, so that they stay short. It fails where memory is refused; nothing is seen of it.
    pub fn spread(&mut self, alloc: Global, count: usize) -> Result<(), AllocError>
        ensures { self.new ≡ self.old }
    {
        spread_links(alloc, &mut self.links, &mut self.heads, count)
    }
}

/// The chain of a label.
pub(crate) fn bucket(label: usize, count: usize) -> usize
    requires { 0 < count }
    ensures value { result ≡ bit_and label (count - 1) }
    ensures below { result < count }
{
    label & (count - 1)
}

/// The nearest item with the label, from a place of its chain on. `heads` is read by the clauses alone.
fn nearest(links: &[Link], heads: &[u32], from: usize, label: usize) -> Option<usize>
    requires linked { IsLinked (length heads.now) (labels links.now) (earliers links.now) heads.now (length links.now) }
    requires within { from ≤ length links.now }
    ensures { (n : ℕ) → IsPast (length heads.now) (labels links.now) n label from → IsNearest (labels links.now) n label result }
{
    let mut at = from;
    while at > 0 {
        let link = links[at - 1];
        if link.label as usize == label {
            return Some(at - 1);
        }
        at = link.earlier as usize;
    }
    None
}

/// The newest item with the label.
fn latest_link(links: &[Link], heads: &[u32], label: usize) -> Option<usize>
    requires { IsLinked (length heads.now) (labels links.now) (earliers links.now) heads.now (length links.now) }
    ensures { IsNearest (labels links.now) (length links.now) label result }
{
    let count = heads.len();
    if count == 0 {
        return None;
    }
    nearest(links, heads, heads[bucket(label, count)] as usize, label)
}

/// The nearest earlier item with the label of this one.
fn earlier_link(links: &[Link], heads: &[u32], item: usize) -> Option<usize>
    requires linked { IsLinked (length heads.now) (labels links.now) (earliers links.now) heads.now (length links.now) }
    requires within { item < length links.now }
    ensures { IsNearest (labels links.now) item (slice_index (labels links.now) item) result }
{
    let link = links[item];
    nearest(links, heads, link.earlier as usize, link.label as usize)
}

/// The same number, where 32 bits hold it.
pub(crate) fn short(number: usize) -> Result<u32, AllocError>
    ensures { IfOk result (λ n. n ≡ number) }
{
    if number <= u32::MAX as usize {
        return Ok(number as u32);
    }
    Err(AllocError)
}

/// Adds a link at the head of its chain.
#[inline(always)]
fn push_link(links: &mut Vec<Link>, heads: &mut Vec<u32>, label: usize) -> Result<(), AllocError>
    requires room { 0 < length heads.old.items }
    requires linked { IsLinked (length heads.old.items) (labels links.old.items) (earliers links.old.items) heads.old.items (length links.old.items) }
    ensures did { OnOk result (labels links.new.items ≡ labels links.old.items ++ label ∷ []) }
    ensures err { OnErr result (labels links.new.items ≡ labels links.old.items) }
    ensures linked { IsLinked (length heads.new.items) (labels links.new.items) (earliers links.new.items) heads.new.items (length links.new.items) }
{
    let own = short(label)?;
    let many = links.len();
    let next = short(many + 1)?;
    let at = bucket(label, heads.len());
    let earlier = heads[at];
    links.reserve(1)?;
    links.push_reserved(Link {
        label: own,
        earlier,
    });
    heads[at] = next;
    Ok(())
}

/// Takes the newest link off its chain.
fn drop_link(links: &mut Vec<Link>, heads: &mut Vec<u32>)
    requires linked { IsLinked (length heads.old.items) (labels links.old.items) (earliers links.old.items) heads.old.items (length links.old.items) }
    requires some { 0 < length links.old.items }
    ensures did { labels links.new.items ≡ take (length (labels links.old.items) - 1) (labels links.old.items) }
    ensures linked { IsLinked (length heads.new.items) (labels links.new.items) (earliers links.new.items) heads.new.items (length links.new.items) }
{
    let count = heads.len();
    let last = links.len() - 1;
    let link = links[last];
    links.truncate(last);
    if count > 0 {
        heads[bucket(link.label as usize, count)] = link.earlier;
    }
}

/// Adds a link; the first makes chains.
#[inline(always)]
fn push_label(
    alloc: Global,
    links: &mut Vec<Link>,
    heads: &mut Vec<u32>,
    label: usize,
) -> Result<(), AllocError>
    requires { IsLinked (length heads.old.items) (labels links.old.items) (earliers links.old.items) heads.old.items (length links.old.items) }
    ensures did { OnOk result (labels links.new.items ≡ labels links.old.items ++ label ∷ []) }
    ensures err { OnErr result (labels links.new.items ≡ labels links.old.items) }
    ensures linked { IsLinked (length heads.new.items) (labels links.new.items) (earliers links.new.items) heads.new.items (length links.new.items) }
{
    if heads.len() > 0 {
        return push_link(links, heads, label);
    }
    spread_links(alloc, links, heads, 1)?;
    push_link(links, heads, label)
}

/// Puts the links into at least `count` chains.
#[inline(never)]
fn spread_links(
    alloc: Global,
    links: &mut Vec<Link>,
    heads: &mut Vec<u32>,
    count: usize,
) -> Result<(), AllocError>
    requires { IsLinked (length heads.old.items) (labels links.old.items) (earliers links.old.items) heads.old.items (length links.old.items) }
    ensures labels { labels links.new.items ≡ labels links.old.items }
    ensures some { OnOk result (0 < length heads.new.items) }
    ensures linked { IsLinked (length heads.new.items) (labels links.new.items) (earliers links.new.items) heads.new.items (length links.new.items) }
{
    let _many = short(links.len())?;
    *heads = blank_heads(alloc, count)?;
    relink(links.as_mut_slice(), heads.as_mut_slice());
    Ok(())
}

/// `count` heads of empty chains, or more: a power of 2.
fn blank_heads(alloc: Global, count: usize) -> Result<Vec<u32>, AllocError>
    ensures some { IfOk result (λ heads. 0 < length heads.items) }
    ensures blank { IfOk result (λ heads. heads.items ≡ replicate (length heads.items) 0) }
{
    let mut size = 8;
    while size < count {
        size = size.saturating_mul(2);
    }
    let mut heads = Vec::new(alloc);
    heads.resize(size, 0)?;
    Ok(heads)
}

/// Puts each link into its chain, over heads of empty chains.
fn relink(links: &mut [Link], heads: &mut [u32])
    requires few { length links.old < 2 ^ 32 }
    requires some { 0 < length heads.old }
    requires blank { heads.old ≡ replicate (length heads.old) 0 }
    ensures labels { labels links.new ≡ labels links.old }
    ensures linked { IsLinked (length heads.new) (labels links.new) (earliers links.new) heads.new (length links.new) }
{
    let count = heads.len();
    for i in 0..links.len() {
        let label = links[i].label;
        let at = bucket(label as usize, count);
        links[i] = Link {
            label,
            earlier: heads[at],
        };
        heads[at] = i as u32 + 1;
    }
}
