//! The law that puts the layers together: where each layer of the compiler says what it says, the image is the hardened image of the
//! tree. Nothing here runs.

ghost use Rattle.compile_chain.specs.Laws.{CompiledIsHardened, CanBeHardened};

use check_law::same_run;

/// A tree without fault, lowered, doubled and made into an image, has a hardened image of few words. The call does nothing; its
/// contract is the law.
pub fn compiled_is_hardened()
    ensures { CompiledIsHardened }
{
    same_run();
}

/// What a checked program is doubled to is small enough to become an image. The call does nothing; its contract is the law.
pub fn can_be_hardened()
    ensures { CanBeHardened }
{}
