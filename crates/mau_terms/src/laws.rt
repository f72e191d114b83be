//! What is proved of the definitions: of equality, normal forms, solutions and their orders. Each function does nothing and has a
//! law for its contract; the laws are stated in `specs/Laws.antt`.
ghost use Rattle.mau_terms.specs.Laws.{EqualWhereNormsAre, EqualIsEquivalence, NormIsNormal, NormIsEqual, EqualWhereSame, PlainIsNormal, InstancesAreBare, InstancesByNorms, ListOfTwo, IdentityHasNoElements, ListsNest, OverListIsEqual, TreesAreOrdered, SolutionsAreOrdered, TiesAreEqual, RightIsDetermined, SolutionsAreFinite, SolutionsWithinAreFinite, CanTakeByNorms, TakenAreFinite, PairsKeepPlaces};

/// Two bare terms over a lawful signature are equal modulo the axioms exactly where their normal forms are the same tree.
pub fn equal_where_norms_are()
    ensures { EqualWhereNormsAre }
{}

/// Equality modulo the axioms is an equivalence of bare terms.
pub fn equal_is_equivalence()
    ensures { EqualIsEquivalence }
{}

/// A normal form is its own normal form.
pub fn norm_is_normal()
    ensures { NormIsNormal }
{}

/// Each bare term is equal to its normal form, read as a bare term.
pub fn norm_is_equal()
    ensures { NormIsEqual }
{}

/// Over a signature without axioms, equal terms are the same.
pub fn equal_where_same()
    ensures { EqualWhereSame }
{}

/// Over a signature without axioms, each tree is a normal form.
pub fn plain_is_normal()
    ensures { PlainIsNormal }
{}

/// An instance of a bare term by values of the kinds of its variables is a bare term of the same kind.
pub fn instances_are_bare()
    ensures { InstancesAreBare }
{}

/// The normal form of an instance depends on the normal forms of the values alone.
pub fn instances_by_norms()
    ensures { InstancesByNorms }
{}

/// The list of an associative operator over two terms is the join of their lists, sorted under a commutative one.
pub fn list_of_two()
    ensures { ListOfTwo }
{}

/// The identity of an operator has the empty list under it.
pub fn identity_has_no_elements()
    ensures { IdentityHasNoElements }
{}

/// An associative operator over a list is that operator over its first element and the rest.
pub fn lists_nest()
    ensures { ListsNest }
{}

/// A bare term is equal to an operator over a list exactly where its normal form is that of the operator over the list.
pub fn over_list_is_equal()
    ensures { OverListIsEqual }
{}

/// The order of trees is total, and only the same tree ties.
pub fn trees_are_ordered()
    ensures { TreesAreOrdered }
{}

/// The order of solutions is total.
pub fn solutions_are_ordered()
    ensures { SolutionsAreOrdered }
{}

/// Solutions that tie have the same left context and equal values.
pub fn ties_are_equal()
    ensures { TiesAreEqual }
{}

/// The left context and the values of a solution determine its right context.
pub fn right_is_determined()
    ensures { RightIsDetermined }
{}

/// A pattern and a subject have finitely many solutions, where equal values count once.
pub fn solutions_are_finite()
    ensures { SolutionsAreFinite }
{}

/// A pattern and a subject have finitely many solutions with context, where equal values count once.
pub fn solutions_within_are_finite()
    ensures { SolutionsWithinAreFinite }
{}

/// What a subject can take under an operator depends on the normal forms of the subject and of the argument alone.
pub fn can_take_by_norms()
    ensures { CanTakeByNorms }
{}

/// A subject can take finitely many arguments under an operator, where equal ones count once.
pub fn taken_are_finite()
    ensures { TakenAreFinite }
{}

/// A pair that is added to the variables of an item stands at its place, and the others keep theirs.
pub fn pairs_keep_places()
    ensures { PairsKeepPlaces }
{}
