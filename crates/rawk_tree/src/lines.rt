//! The sites of a program: their lines, and those of the entries of functions.

ghost use Rattle.std.specs.Prelude.{◌≡◌, ◌==◌};
ghost use Rattle.std.specs.List.{position};
ghost use Rattle.rawk_tree.specs.Sites.{entry_of, line_at};

use crate::tree::{Function, Program};

impl Program {
    /// The first site on a line, counted from 1, or none where the line has no site. It takes no memory.
    pub fn site_on_line(&self, line: u64) -> Option<usize>
        ensures { result ≡ position (λ l. l == line) self.now.lines.items }
    {
        self.lines.iter().position(|l| *l == line)
    }

    /// The line of a site, counted from 1; it is 0 where there is no site, as at the reading of a record. It takes no memory.
    pub fn line_of_site(&self, site: Option<usize>) -> u64
        ensures { result ≡ line_at self.now.lines.items site }
    {
        line_in(&self.lines, site)
    }

    /// The site of the entry of a function, by its name. It takes no memory.
    pub fn entry_of(&self, name: &[u8]) -> Option<usize>
        ensures { result ≡ entry_of self.now.functions.items name.now }
    {
        entry_in(&self.functions, name)
    }
}

/// The site of the entry of the function with a name, among these.
fn entry_in(functions: &[Function], name: &[u8]) -> Option<usize>
    ensures { result ≡ entry_of functions.now name.now }
{
    for function in functions {
        if name == function.name.as_slice() {
            return Some(function.site);
        }
    }
    None
}

/// The line of a site among those of all sites.
fn line_in(lines: &[u64], site: Option<usize>) -> u64
    ensures { result ≡ line_at lines.now site }
{
    match site {
        None => 0,
        Some(site) => match lines.get(site) {
            Some(line) => *line,
            None => 0,
        },
    }
}
