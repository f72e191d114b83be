//! What is proved of the numbers of shared terms. Each function does nothing and has a law for its contract; the laws are stated
//! in `specs/Laws.antt`.
ghost use Rattle.mau_store.specs.Laws.{TreeOfNode, OneNumberWhereOneTree, TiedWhereOneNumber, OneNumberWhereEqual, ArgumentsStandForNorms, ExtensionIsPreorder, ExtensionKeepsTerms};

/// The tree of a number is made of its node, over the trees of the arguments.
pub fn tree_of_node()
    ensures { TreeOfNode }
{}

/// Two numbers of one store are one exactly where they stand for the same tree.
pub fn one_number_where_one_tree()
    ensures { OneNumberWhereOneTree }
{}

/// Two numbers tie in the order of trees exactly where they are one.
pub fn tied_where_one_number()
    ensures { TiedWhereOneNumber }
{}

/// Numbers that stand for two bare terms over a lawful signature are one exactly where the terms are equal modulo the axioms.
pub fn one_number_where_equal()
    ensures { OneNumberWhereEqual }
{}

/// The arguments of a normal form are normal forms.
pub fn arguments_stand_for_norms()
    ensures { ArgumentsStandForNorms }
{}

/// Each store extends itself, and what extends an extension extends the first.
pub fn extension_is_preorder()
    ensures { ExtensionIsPreorder }
{}

/// In an extension each number that was there keeps its node and its tree.
pub fn extension_keeps_terms()
    ensures { ExtensionKeepsTerms }
{}
