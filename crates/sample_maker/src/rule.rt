//! The rule of the sample line: `+ S //Folder[Act/RPhys = "Ana"]/Admin`.

ghost use Rattle.std.specs.Prelude.{◌≡◌, IfOk};
ghost use Rattle.sample_maker.specs.Sample as word;

use acl_model::{
    Axis, Bytes, Cmp, Name, Op, Operand, Path, Pred, PredStep, Rule, Sequence, Sign, Step, Test,
};
use std::alloc::{AllocError, Global};

/// The test that an element has this name.
fn named(alloc: Global, name: &[u8]) -> Result<Test, AllocError>
    ensures { IfOk result (λ test. test ≡ Test.Named name.now) }
{
    Ok(Test::Named(Name::from_slice(alloc, name)?))
}

/// The predicate `[Act/RPhys = "Ana"]`.
#[tactic(auto, unfolding(crate::specs::Sample::by_ana))]
fn by_ana(alloc: Global) -> Result<Pred, AllocError>
    ensures { IfOk result (λ pred. pred ≡ word.by_ana) }
{
    let way = vec![in alloc;
        PredStep {
            axis: Axis::Child,
            test: named(alloc, b"Act")?
        },
        PredStep {
            axis: Axis::Child,
            test: named(alloc, b"RPhys")?
        },
    ]?;
    let ana = Operand::Text(Bytes::from_slice(alloc, b"Ana")?);
    Ok(Pred {
        way: Sequence::from_vec(way),
        attribute: None,
        cmp: Some(Cmp {
            op: Op::Eq,
            operand: ana,
        }),
    })
}

/// The path `//Folder[Act/RPhys = "Ana"]/Admin`.
#[tactic(auto, unfolding(crate::specs::Sample::patients_of_ana))]
fn patients_of_ana(alloc: Global) -> Result<Path, AllocError>
    ensures { IfOk result (λ path. path ≡ word.patients_of_ana) }
{
    let folders = Step {
        axis: Axis::Descendant,
        test: named(alloc, b"Folder")?,
        preds: Sequence::from_vec(vec![in alloc; by_ana(alloc)?]?),
    };
    let patients = Step {
        axis: Axis::Child,
        test: named(alloc, b"Admin")?,
        preds: Sequence::new(alloc),
    };
    Ok(Path {
        steps: Sequence::from_vec(vec![in alloc; folders, patients]?),
    })
}

/// The rule `S`, which grants the patients of the physician Ana.
pub fn sample_rule(alloc: Global) -> Result<Rule, AllocError>
    ensures { IfOk result (λ rule. rule ≡ word.sample_rule) }
{
    Ok(Rule {
        id: Bytes::from_slice(alloc, b"S")?,
        sign: Sign::Grant,
        path: patients_of_ana(alloc)?,
    })
}
