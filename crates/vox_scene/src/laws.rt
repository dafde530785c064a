ghost use Rattle.vox_scene.specs.Judged.{ScenesAreJudged, ScenesAreJudgedOnce};
ghost use Rattle.vox_scene.specs.WrittenScenes.{FilesOfModelsAreRead};

/// A law: a file whose models can be read has a scene, but for want of memory, or a first fault;
/// and one of these alone.
pub fn scenes_are_judged()
    ensures some { ScenesAreJudged }
    ensures once { ScenesAreJudgedOnce }
{}

/// A law: the file of some models says these models, and so it is what a reader has to answer.
pub fn files_of_models_are_read()
    ensures { FilesOfModelsAreRead }
{}
