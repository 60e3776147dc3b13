//! Laws of the table. These functions do nothing: what they ensure is the law.

ghost use Rattle.authorities.specs.AuthoritySets.{IsSetOf};
ghost use Rattle.authorities.specs.declared.authority.Authority.{Authority};
ghost use Rattle.conn_rules.specs.Confer.{row_confers};
ghost use Rattle.conn_rules.specs.Row.{among, bits_of, table};
ghost use Rattle.adl_meaning.specs.Prelude.{All};
ghost use Rattle.std.specs.Prelude.{List as Items};

/// The rights of each row on its object confer just the row's authorities.
pub fn rights_confer_just_the_authorities()
    ensures { All (λ r. IsSetOf (row_confers r) r.authorities.bits) table }
{}

/// The set that the table makes of a list of authorities has just those of the list.
pub fn sets_are_their_lists()
    ensures { (list : Items Authority) → IsSetOf (among list) (bits_of list) }
{}
