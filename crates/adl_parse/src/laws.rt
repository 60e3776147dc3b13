//! What the definitions promise together, as functions that do nothing.

ghost use Rattle.adl_ast.specs.Forms.{value_line, composition_line, configuration_line, assembly_line};
ghost use Rattle.adl_ast.specs.declared.file.File.{File as Tree};
ghost use Rattle.adl_parse.specs.Files.{IsFileIn, IsSettled};
ghost use Rattle.adl_parse.specs.Parts.{FaultIsOne};
ghost use Rattle.cam_base.specs.declared.error.Refused.{Refused as Refusal};
ghost use Rattle.cam_base.specs.declared.place.Fault.{Fault as SourceFault};
ghost use Rattle.cam_base.specs.declared.token.Token.{Token as Tok};
ghost use Rattle.std.specs.Prelude.{◌≡◌, ℕ, List as Seq, Result};

/// There is one place at which the tokens stop being those of a part, and one reason: parsing has one fault at most.
pub fn part_faults_are_one()
    ensures value { FaultIsOne value_line }
    ensures composition { FaultIsOne composition_line }
    ensures configuration { FaultIsOne configuration_line }
    ensures assembly { FaultIsOne assembly_line }
{}

/// Parsing a file has one answer, aside from want of memory: the tree, or the one fault of the place where its tokens stop.
pub fn file_answers_are_one()
    ensures { (bytes : Seq ℕ) (tokens : Seq Tok) (a b : Result Tree (Refusal SourceFault)) → IsSettled a → IsSettled b
        → IsFileIn bytes tokens a → IsFileIn bytes tokens b → a ≡ b }
{}
