//! The items of a program.

ghost use Rattle.std.specs.Prelude.{◌≡◌, ◌≤◌, ◌-◌, List, [], ◌∷◌, ◌++◌, length, pos, IfOk, IsTrue, OnOk};
ghost use Rattle.rawk_grammar.specs.declared.tree.Action.TheVariants as does;
ghost use Rattle.rawk_grammar.specs.declared.tree.Item as part;
ghost use Rattle.rawk_tree.specs.declared.tree.Expr.TheVariants as tree_expr;
ghost use Rattle.rawk_tree.specs.declared.tree.Stmt.TheVariants as tree;
ghost use Rattle.rawk_names.specs.Items as naming;
ghost use Rattle.rawk_names.specs.Named.{IsNamed, known};
ghost use Rattle.rawk_resolution.specs.InOrder as order;
ghost use Rattle.rawk_resolution.specs.Meant.{global_words, sense, sense_of};
ghost use Rattle.rawk_syntax.specs.Laid.{sited, rule_of, Adds, Does, Guards, Rules, Defines, IsLaidWith, IsLaid, ranges_of, words_of};
ghost use Rattle.rawk_syntax.specs.Texts.{IsText};

use crate::lines::Sites;
use crate::statements::settle_statements;
use rawk_grammar::tree as parsed;
use rawk_grammar::tree::{Action, Item, Pattern};
use rawk_items::Boxed;
use rawk_names::Names;
use rawk_parsing::tree::Name;
use rawk_resolution::growth::push;
use rawk_resolution::{Scope, global_kinds, parameter_kinds, settle_expr, settle_printed};
use rawk_tree::{Expr, Function, Guard, Kind, Program, Rule, Stmt};
use rawk_value::Bytes;
use std::alloc::{AllocError, Global};

/// What a rule with a pattern does. A missing action prints the record.
fn settle_action(
    alloc: Global,
    sites: &mut Sites<'_>,
    scope: &Scope<'_>,
    action: &Action,
) -> Result<Stmt, AllocError>
    requires { IsTrue (order.action_in_order (sense_of scope.now) action.now) }
    ensures text { sites.new.text ≡ sites.old.text }
    ensures settled { IfOk result (λ t. Does sites.old.text.now (sense_of scope.now) action.now t sites.old.lines.items sites.new.lines.items) }
{
    match action {
        Action::Missing(left) => {
            let site = sites.lines.len();
            sites.add(*left)?;
            let values = settle_printed(alloc, scope, &[])?;
            Ok(Stmt::Print(site, values))
        }
        Action::Given(steps) => {
            let steps = settle_statements(alloc, sites, scope, steps.as_slice())?;
            Ok(Stmt::Block(steps))
        }
    }
}

/// What says at which records a rule runs, whose site is added.
fn settle_guard(
    alloc: Global,
    sites: &mut Sites<'_>,
    scope: &Scope<'_>,
    ranges: usize,
    pattern: &Pattern,
) -> Result<Guard, AllocError>
    requires { IsTrue (order.pattern_in_order (sense_of scope.now) pattern.now) }
    ensures text { sites.new.text ≡ sites.old.text }
    ensures settled { IfOk result (λ g. Guards sites.old.text.now (sense_of scope.now) ranges pattern.now g sites.old.lines.items sites.new.lines.items) }
{
    match pattern {
        Pattern::When(left, test) => {
            sites.add(*left)?;
            let test = settle_expr(alloc, scope, test.get())?;
            Ok(Guard::When(test))
        }
        Pattern::Range(left, first, last) => {
            sites.add(*left)?;
            let first = settle_expr(alloc, scope, first.get())?;
            let last = settle_expr(alloc, scope, last.get())?;
            Ok(Guard::Between(ranges, first, last))
        }
    }
}

/// A rule with a pattern, behind `ranges` ranges, which is added to the rules.
fn settle_rule(
    alloc: Global,
    sites: &mut Sites<'_>,
    scope: &Scope<'_>,
    ranges: usize,
    pattern: &Pattern,
    action: &Action,
    rules: &mut Vec<Rule>,
) -> Result<(), AllocError>
    requires pattern { IsTrue (order.pattern_in_order (sense_of scope.now) pattern.now) }
    requires action { IsTrue (order.action_in_order (sense_of scope.now) action.now) }
    ensures text { sites.new.text ≡ sites.old.text }
    ensures settled { OnOk result (Adds (λ r. Rules sites.old.text.now (sense_of scope.now) ranges pattern.now action.now r sites.old.lines.items sites.new.lines.items) rules.old.items rules.new.items) }
{
    let site = sites.lines.len();
    let guard = settle_guard(alloc, sites, scope, ranges, pattern)?;
    let action = settle_action(alloc, sites, scope, action)?;
    push(
        rules,
        Rule {
            site,
            guard,
            action,
        },
    )
}

/// A rule without a pattern, with the place of its `{`, which is added to the rules.
fn settle_always(
    alloc: Global,
    sites: &mut Sites<'_>,
    scope: &Scope<'_>,
    brace: usize,
    steps: &[Boxed<parsed::Stmt>],
    rules: &mut Vec<Rule>,
) -> Result<(), AllocError>
    requires { IsTrue (order.each (order.stmt_in_order (sense_of scope.now)) steps.now) }
    ensures text { sites.new.text ≡ sites.old.text }
    ensures settled { OnOk result (Adds (λ r. (r ≡ rule_of (length sites.old.lines.items) (tree_expr.Number (pos 1)) r.action) × Does sites.old.text.now (sense_of scope.now) (does.Given steps.now) r.action (sited sites.old.text.now brace sites.old.lines.items) sites.new.lines.items) rules.old.items rules.new.items) }
{
    let site = sites.lines.len();
    sites.add(brace)?;
    let steps = settle_statements(alloc, sites, scope, steps)?;
    push(
        rules,
        Rule {
            site,
            guard: Guard::When(Expr::Number(1)),
            action: Stmt::Block(steps),
        },
    )
}

/// A block of statements, which is added to others.
fn settle_block(
    alloc: Global,
    sites: &mut Sites<'_>,
    scope: &Scope<'_>,
    steps: &[Boxed<parsed::Stmt>],
    blocks: &mut Vec<Stmt>,
) -> Result<(), AllocError>
    requires { IsTrue (order.each (order.stmt_in_order (sense_of scope.now)) steps.now) }
    ensures text { sites.new.text ≡ sites.old.text }
    ensures settled { OnOk result (Adds (λ t. Does sites.old.text.now (sense_of scope.now) (does.Given steps.now) t sites.old.lines.items sites.new.lines.items) blocks.old.items blocks.new.items) }
{
    let steps = settle_statements(alloc, sites, scope, steps)?;
    push(blocks, Stmt::Block(steps))
}

/// How many ranges a pattern is.
fn ranges_of(pattern: &Pattern) -> usize
    ensures { result ≡ ranges_of pattern.now }
{
    match pattern {
        Pattern::When(_, _) => 0,
        Pattern::Range(_, _, _) => 1,
    }
}

fn words_of(alloc: Global, names: &[Name]) -> Result<Vec<Bytes>, AllocError>
    ensures { IfOk result (λ words. words.items ≡ words_of names.now) }
{
    let mut words = Vec::new(alloc);
    for name in names {
        words.push(Bytes::from_slice(alloc, name.word.as_slice())?)?;
    }
    Ok(words)
}

/// One more function at the end, of these parts.
fn push_function(
    functions: &mut Vec<Function>,
    name: Bytes,
    parameters: Vec<Bytes>,
    kinds: Vec<Kind>,
    site: usize,
    steps: Vec<Stmt>,
) -> Result<(), AllocError>
    ensures { OnOk result (functions.new.items ≡ functions.old.items ++ record { name = name; parameters = parameters; kinds = kinds; site = site; body = tree.Block steps } ∷ []) }
{
    push(
        functions,
        Function {
            name,
            parameters,
            kinds,
            site,
            body: Stmt::Block(steps),
        },
    )
}

/// A function, in its scope, which is added to the functions.
fn settle_function(
    alloc: Global,
    sites: &mut Sites<'_>,
    scope: &Scope<'_>,
    left: usize,
    name: &Name,
    parameters: &[Name],
    steps: &[Boxed<parsed::Stmt>],
    functions: &mut Vec<Function>,
) -> Result<(), AllocError>
    requires { IsTrue (order.each (order.stmt_in_order (sense_of scope.now)) steps.now) }
    ensures text { sites.new.text ≡ sites.old.text }
    ensures settled { OnOk result (Adds (λ f. Defines sites.old.text.now (sense_of scope.now) (scope.now.number - 1) left name.now parameters.now steps.now f sites.old.lines.items sites.new.lines.items) functions.old.items functions.new.items) }
{
    let site = sites.lines.len();
    sites.add(left)?;
    let name = Bytes::from_slice(alloc, name.word.as_slice())?;
    let parameters = words_of(alloc, parameters)?;
    let kinds = parameter_kinds(alloc, scope.names, scope.number.saturating_sub(1))?;
    let steps = settle_statements(alloc, sites, scope, steps)?;
    push_function(functions, name, parameters, kinds, site, steps)
}

/// An item, which is added to the program.
fn settle_item(
    alloc: Global,
    sites: &mut Sites<'_>,
    names: &Names,
    program: &mut Program,
    item: &Item,
) -> Result<(), AllocError>
    requires bounded { program.old.ranges ≤ length program.old.rules.items }
    requires in_order { IsTrue (order.item_in_order (sense (known names.now)) (length program.old.functions.items) item.now) }
    ensures text { sites.new.text ≡ sites.old.text }
    ensures settled { OnOk result ((items : List part.Item) → IsLaidWith sites.old.text.now (sense (known names.now)) items program.old sites.old.lines.items
        → IsLaidWith sites.old.text.now (sense (known names.now)) (items ++ item.now ∷ []) program.new sites.new.lines.items) }
    ensures counted { OnOk result (length program.new.functions.items ≡ order.functions_behind item.now (length program.old.functions.items)) }
    ensures bounded { OnOk result (program.new.ranges ≤ length program.new.rules.items) }
{
    let outside = Scope { names, number: 0 };
    match item {
        Item::Begin(steps) => {
            let begin = &mut program.begin;
            settle_block(alloc, sites, &outside, steps.as_slice(), begin)
        }
        Item::End(steps) => {
            let end = &mut program.end;
            settle_block(alloc, sites, &outside, steps.as_slice(), end)
        }
        Item::Always(left, steps) => {
            let rules = &mut program.rules;
            settle_always(alloc, sites, &outside, *left, steps.as_slice(), rules)
        }
        Item::Rule(pattern, action) => {
            let ranges = program.ranges;
            let pattern = pattern.get();
            let rules = &mut program.rules;
            settle_rule(alloc, sites, &outside, ranges, pattern, action, rules)?;
            program.ranges += ranges_of(pattern);
            Ok(())
        }
        Item::Function(left, name, parameters, steps) => {
            let before = program.functions.len();
            let inside = Scope {
                names,
                number: before + 1,
            };
            let (takes, steps) = (parameters.as_slice(), steps.as_slice());
            let functions = &mut program.functions;
            settle_function(alloc, sites, &inside, *left, name, takes, steps, functions)
        }
    }
}

/// The names of the globals that are not special, in the order in which they appear.
fn global_words(alloc: Global, names: &Names) -> Result<Vec<Bytes>, AllocError>
    ensures { IfOk result (λ words. words.items ≡ global_words (known names.now)) }
{
    let mut words = Vec::new(alloc);
    for variable in names.first_own_global()..names.variable_count() {
        words.push(Bytes::from_slice(alloc, names.variable_name(variable))?)?;
    }
    Ok(words)
}

/// The program of items that the grammar gives a text, by their names, which are in order.
pub fn settle(
    alloc: Global,
    text: &[u8],
    names: &Names,
    items: &[Item],
) -> Result<Program, AllocError>
    requires derived { IsText text.now items.now }
    requires named { IsNamed (naming.program items.now) (known names.now) }
    ensures { IfOk result (λ p. IsLaid text.now (known names.now) items.now p) }
{
    let words = global_words(alloc, names)?;
    let kinds = global_kinds(alloc, names)?;
    let mut program = Program {
        names: Vec::new(alloc),
        kinds: Vec::new(alloc),
        functions: Vec::new(alloc),
        ranges: 0,
        begin: Vec::new(alloc),
        rules: Vec::new(alloc),
        end: Vec::new(alloc),
        lines: Vec::new(alloc),
    };
    let mut sites = Sites::new(alloc, text);
    for item in items {
        settle_item(alloc, &mut sites, names, &mut program, item)?;
    }
    program.names = words;
    program.kinds = kinds;
    program.lines = sites.lines;
    Ok(program)
}
