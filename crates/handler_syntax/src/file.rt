// Files of handlers.

ghost use Rattle.std.specs.Prelude.{◌≡◌};
ghost use Rattle.syntax_trees.specs.Bounds.{KeepsBounds};
ghost use Rattle.syntax_trees.specs.Rising.{PlacesRise};

use std::marker::Model;
use syntax_trees::File as Tree;

/// The tree of a file of handlers that keeps the limits of the language, so that its canonical
/// text can be read back. Contracts see it as the tree.
#[derive(Debug, Drop)]
pub struct File {
    pub(crate) tree: Tree,
}

impl Model for File {
    ghost use Rattle.std.specs.Coded.{codes};
    ghost use Rattle.syntax_trees.specs.contracts.stmt.Stmt as stmt;
    ghost use Rattle.syntax_trees.specs.declared.file.File.{File as Tree};
    ghost use Rattle.handler_syntax.specs.Keeps.{IsKept};

    ghost Value = { Tree };

    ghost coded = { Prim.hlevel (codes, stmt.the_row.coded) };

    ghost view = { λ f. f.tree };

    ghost invariant = { λ f. IsKept f.tree };
}

impl File {
    /// The tree, and what whoever reads it may rely on.
    pub fn tree(&self) -> &Tree
        ensures tree { result.now ≡ self.now }
        ensures bounds { KeepsBounds self.now }
        ensures rise { PlacesRise self.now }
    {
        &self.tree
    }

    /// The same, where the file is given up.
    pub fn into_tree(self) -> Tree
        ensures tree { result ≡ self }
        ensures bounds { KeepsBounds result }
        ensures rise { PlacesRise result }
    {
        let File { tree } = self;
        tree
    }
}
