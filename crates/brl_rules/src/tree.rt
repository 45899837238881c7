//! The tree of a table's rules, by their characters. It finds the longest rule that fits in one
//! walk over a text.
ghost use Rattle.std.specs.Prelude.{◌≡◌, ◌<◌, ◌≤◌, [], ℕ, List, IfOk, OnOk, Some, None, length};
ghost use Rattle.brl_rules.specs.Tree.{branch_of, chain_of, ends_at, node_at, rules_at, with_rule, IsTree, IsTreeOf};

use crate::Rule;
use std::alloc::{AllocError, Global};
use std::marker::Model;

/// The number of chains of nodes.
const CHAINS: usize = 16384;

/// A node of the tree.
#[derive(Drop)]
struct Node {
    /// The node from which a character leads here.
    parent: usize,
    /// The character that leads here.
    mark: char,
    /// The node after this one in its chain. 0 at the end.
    next: usize,
    /// The numbers of the rules that end here, in rank.
    rules: Vec<u32>,
}

/// A tree of rules. Its nodes are numbered, and 0 is the root. A contract sees a `Tree`.
///
/// A node is in one of many chains, by its parent and its mark. So a branch is found at once,
/// however many siblings it has.
#[derive(Drop)]
pub struct RuleTree {
    nodes: Vec<Node>,
    /// The first node of each chain. 0 where it has none. A tree without rules has no chains.
    chains: Vec<usize>,
}

impl Model for RuleTree {
    ghost use Rattle.brl_rules.specs.Tree.{Tree, IsTree};

    ghost Value = { Tree };

    ghost view = { λ t. record { nodes = t.nodes.items; chains = t.chains.items } };

    ghost invariant = { λ t. IsTree (record { nodes = t.nodes.items; chains = t.chains.items }) };
}

impl RuleTree {
    /// The number of the root.
    pub const ROOT: usize = 0;

    /// The tree of these rules, numbered from 0.
    pub fn of_rules(alloc: Global, rules: &[Rule]) -> Result<RuleTree, AllocError>
        requires { length rules.now ≤ 4096 }
        ensures { IfOk result (IsTreeOf rules.now) }
    {
        if rules.is_empty() {
            return RuleTree::new(alloc, 0);
        }
        let mut tree = RuleTree::new(alloc, CHAINS)?;
        for (number, rule) in rules.iter().enumerate() {
            tree.insert(alloc, rule.chars.as_slice(), number as u32)?;
        }
        Ok(tree)
    }

    /// A tree without rules, with this number of chains.
    fn new(alloc: Global, chains: usize) -> Result<RuleTree, AllocError>
        ensures empty { IfOk result (λ tree. (at : List ℕ) → ends_at tree 0 at ≡ []) }
        ensures chains { IfOk result (λ tree. length tree.chains ≡ chains) }
    {
        let root = Node {
            parent: 0,
            mark: '\0',
            next: 0,
            rules: Vec::new(alloc),
        };
        let mut nodes = Vec::new(alloc);
        nodes.push(root)?;
        let chains = Vec::from_elem(alloc, 0, chains)?;
        Ok(RuleTree { nodes, chains })
    }

    /// Inserts the rule with this number and these characters as the last one.
    fn insert(&mut self, alloc: Global, chars: &[char], number: u32) -> Result<(), AllocError>
        requires { length self.old.chains ≡ 16384 }
        ensures chains { OnOk result (length self.new.chains ≡ 16384) }
        ensures ends { OnOk result ((at : List ℕ) → ends_at self.new 0 at ≡ with_rule chars.now number at (ends_at self.old 0 at)) }
    {
        let mut node = RuleTree::ROOT;
        for character in chars {
            node = match self.branch(node, *character) {
                Some(branch) => branch,
                None => self.push_branch(alloc, node, *character)?,
            };
        }
        self.nodes[node].rules.push(number)?;
        Ok(())
    }

    /// Adds the branch to which a character leads from a node, and answers its number.
    fn push_branch(&mut self, alloc: Global, node: usize, mark: char) -> Result<usize, AllocError>
        requires within { node < length self.old.nodes }
        requires none { branch_of self.old node mark ≡ None }
        requires chains { length self.old.chains ≡ 16384 }
        ensures chains { OnOk result (length self.new.chains ≡ 16384) }
        ensures branch { IfOk result (λ branch. branch_of self.new node mark ≡ Some branch) }
        ensures kept { OnOk result ((at : List ℕ) (there : ℕ) → node_at self.old 0 at ≡ Some there → node_at self.new 0 at ≡ Some there) }
        ensures ends { OnOk result ((at : List ℕ) → ends_at self.new 0 at ≡ ends_at self.old 0 at) }
    {
        let chain = chain_of_branch(node, mark);
        let number = self.nodes.len();
        self.nodes.push(Node {
            parent: node,
            mark,
            next: self.chains[chain],
            rules: Vec::new(alloc),
        })?;
        self.chains[chain] = number;
        Ok(number)
    }

    /// The numbers of the rules that end at a node.
    pub fn rules(&self, node: usize) -> &[u32]
        ensures { result.now ≡ rules_at self.now node }
    {
        match self.nodes.get(node) {
            Some(node) => node.rules.as_slice(),
            None => &[],
        }
    }

    /// The branch to which a character leads from a node.
    pub fn branch(&self, node: usize, mark: char) -> Option<usize>
        ensures branch { result ≡ branch_of self.now node mark }
        ensures tree { IsTree self.now }
    {
        let mut number = *self.chains.get(chain_of_branch(node, mark))?;
        while number > 0 {
            let branch = self.nodes.get(number)?;
            if branch.mark == mark && branch.parent == node {
                return Some(number);
            }
            number = branch.next;
        }
        None
    }
}

/// The chain of the branch to which a character leads from a node.
fn chain_of_branch(node: usize, mark: char) -> usize
    ensures chain { result ≡ chain_of node mark }
    ensures within { result < 16384 }
{
    (node % CHAINS * 37 + mark as usize) % CHAINS
}
