//! Each test of each kind of step, where it is the first to fail and where a later one fails beside it. Three boxes and a lid stand at the root.
//!
//! The first line has the metamodel and the steps beforehand, each other one a step and its answer. Where it has more
//! steps before it, these and ` | ` stand before it.
use model_state::StepFault;
use std::alloc::Global;
use std::test::Fail;

pub(crate) const TABLE: &str = r#"boxes; New a 0 / 5; New b 0 / 3; New c 0 / 3; New l 1 / 9
# Put
Put x 9 - 5 -> NotThere
Put a 2 - "t" -> WrongType
Put l 0 - "t" -> WrongType
Put a 0 5 "t" -> WrongType
Put a 0 - 5 -> WrongType
Put a 0 5 5 -> WrongType
Put a 0 "t" "t" -> BadStep
Put a 1 - 0 -> BadStep
Put a 1 0 5 -> BadStep
Put a 0 "t" "u" -> OldDiffers
Put a 0 - "t" | Put a 0 - "u" -> OldDiffers
Put a 0 - "t" | Put a 0 "t" "u" -> Ok
Put a 0 - "t" | Put a 0 "t" - -> Ok
Put a 1 - 2147483647 -> Ok
Put a 1 - 2147483648 -> WrongType
# Ins
Ins x 9 0 "t" -> NotThere
Ins a 0 0 "t" -> WrongType
Ins l 2 0 "t" -> WrongType
Ins a 3 7 "t" -> WrongType
Ins a 2 1 "t" -> BadStep
Ins a 2 0 "t" | Ins a 2 2 "t" -> BadStep
Ins a 2 0 "t"; Ins a 2 1 "u" | Ins a 2 0 "t" -> There
Ins a 2 0 "t"; Ins a 2 1 "u" | Ins a 2 0 "v" -> Bound
Ins a 3 0 5; Ins a 3 1 5 | Ins a 3 2 5 -> Ok
# Del
Del x 9 0 "t" -> NotThere
Del a 0 0 "t" -> WrongType
Del l 2 0 "t" -> WrongType
Del a 3 7 "t" -> WrongType
Del a 2 0 "t" -> BadStep
Ins a 2 0 "t" | Del a 2 1 "t" -> BadStep
Ins a 2 0 "t" | Del a 2 0 "u" -> OldDiffers
Ins a 2 0 "t" | Del a 2 0 "t" -> Ok
# Shift
Shift x 9 0 1 -> NotThere
Shift a 0 0 0 -> WrongType
Shift l 2 0 1 -> WrongType
Ins a 2 0 "t"; Ins a 2 1 "u" | Shift a 2 0 0 -> BadStep
Ins a 2 0 "t"; Ins a 2 1 "u" | Shift a 2 2 0 -> BadStep
Ins a 2 0 "t"; Ins a 2 1 "u" | Shift a 2 0 2 -> BadStep
Ins a 2 0 "t"; Ins a 2 1 "u" | Shift a 2 0 1 -> Ok
# Link
Link x 9 1 b - -> NotThere
Link a 9 1 x - -> NotThere
Link a 4 1 b 1 -> WrongType
Link a 8 1 l 1 -> WrongType
Link l 8 1 a - -> WrongType
Link a 8 1 b 1 -> BadStep
Link a 5 1 b - -> BadStep
Link a 6 1 b 1 -> BadStep
Link a 8 1 b - | Link a 8 2 b 3 -> BadStep
Link a 5 1 b 1 | Link a 5 2 b 2 -> There
Link a 5 1 b 1 | Link a 5 2 c 2 -> Bound
Link a 5 1 c 1 | Link b 5 2 c 2 -> Bound
Link a 7 1 a -; Link a 7 2 b - | Link a 7 3 c - -> Bound
Link a 8 1 b - | Link a 8 1 c - -> Ok
Link a 5 1 a 1 -> Ok
# Unlink
Unlink x 9 1 b - -> NotThere
Unlink a 9 1 x - -> NotThere
Unlink a 4 1 b 1 -> WrongType
Unlink a 8 1 l 1 -> WrongType
Unlink l 8 1 a 1 -> WrongType
Unlink a 8 1 b 1 -> BadStep
Unlink a 5 1 b - -> BadStep
Unlink a 6 1 b 1 -> BadStep
Unlink a 8 1 b - -> NotThere
Link a 5 1 b 2 | Unlink a 5 2 b 2 -> OldDiffers
Link a 5 1 b 2 | Unlink a 5 1 b 1 -> OldDiffers
Link a 5 1 b 2 | Unlink a 5 1 b 2 -> Ok
# RerankRow
RerankRow x 9 b 1 1 -> NotThere
RerankRow a 4 b 1 1 -> WrongType
RerankRow l 8 b 1 1 -> WrongType
RerankRow a 8 b 1 1 -> NotThere
RerankRow a 8 x 1 1 -> NotThere
Link a 8 1 b - | RerankRow a 8 b 2 2 -> BadStep
Link a 8 1 b - | RerankRow a 8 b 2 3 -> OldDiffers
Link a 8 1 b - | RerankRow a 8 b 1 3 -> Ok
Link a 5 1 b 2 | RerankRow b 6 a 2 3 -> Ok
# New
New a 9 x.4 1 -> There
New d 9 x.4 1 -> NotThere
New d 9 / 1 -> WrongType
New d 2 / 1 -> WrongType
New d 0 a.8 1 -> WrongType
New d 0 l.4 1 -> WrongType
New d 0 a.4 1; New e 0 a.4 2 | New f 1 a.4 1 -> WrongType
New d 0 a.4 1; New e 0 a.4 2 | New f 0 a.4 1 -> Bound
New d 0 a.4 1 | New e 0 a.4 1 -> Ok
# Gone
Gone x 9 / 1 -> NotThere
Gone a 1 / 5 -> OldDiffers
Gone a 0 b.4 5 -> OldDiffers
Gone a 0 / 6 -> OldDiffers
Put a 0 - "t" | Gone a 0 / 6 -> OldDiffers
Put a 0 - "t" | Gone a 0 / 5 -> NotEmpty
Ins a 2 0 "t" | Gone a 0 / 5 -> NotEmpty
Link a 8 1 b - | Gone a 0 / 5 -> NotEmpty
Link b 8 1 a - | Gone a 0 / 5 -> NotEmpty
New d 0 a.4 1 | Gone a 0 / 5 -> NotEmpty
New d 0 a.4 1 | Gone d 0 a.4 1 -> Ok
Put a 0 - "t"; Put a 0 "t" - | Gone a 0 / 5 -> Ok
# Move
Move x / 5 / 5 - - -> NotThere
Move a b.4 5 / 1 b - -> OldDiffers
Move a / 6 / 1 - - -> OldDiffers
Move a / 5 / 1 - - -> BadStep
Move a / 5 / 1 b b -> BadStep
Move l / 9 x.4 1 - x -> NotThere
Move l / 9 a.4 1 b a -> WrongType
Move a / 5 b.8 1 - b -> WrongType
Move a / 5 l.4 1 - l -> WrongType
Move a / 5 b.4 1 c b -> Chain
Move a / 5 b.4 1 - - -> Chain
Move a / 5 b.4 1 - b,c -> Chain
Move a / 5 a.4 1 - a -> Chain
New d 0 a.4 1 | Move a / 5 d.4 1 - d,a -> Chain
New d 0 a.4 1; New e 0 a.4 2 | Move b / 3 a.4 1 - c -> Chain
New d 0 a.4 1; New e 0 a.4 2 | Move b / 3 a.4 1 - a -> Bound
New d 0 a.4 1 | Move b / 3 d.4 1 - d,a -> Ok
New d 0 a.4 1 | Move d a.4 1 / 1 a - -> Ok
# RerankPlace
RerankPlace x 1 1 -> NotThere
RerankPlace a 4 4 -> BadStep
RerankPlace a 4 6 -> OldDiffers
RerankPlace a 5 6 -> Ok"#;

pub(crate) fn told(alloc: Global, answer: Result<(), StepFault>) -> Result<String, Fail> {
    match answer {
        Ok(()) => Ok(String::from_str(alloc, "Ok")?),
        Err(fault) => Ok(format!(in alloc; "{fault:?}")?),
    }
}
