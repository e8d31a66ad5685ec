// What a source is built to.
ghost use Rattle.std.specs.Prelude.{◌≡◌, ◌∷◌, ◌++◌, [], ℕ, Bool, false, List, Err, length, map, IfOk, IfErr, OnOk};
ghost use Rattle.p8_tree.specs.Views.{named_source_of, named_sources_of};
ghost use Rattle.p8_io.specs.Shelves.{Files};
ghost use Rattle.p8_objects.specs.Outcomes.{shelved, Answers};
ghost use Rattle.p8_objects.specs.Whole.{AreSources};
ghost use Rattle.p8_build.specs.Sizes.{IsMeasured};
ghost use Rattle.p8_build.specs.Told.{IsRefusal};
ghost use Rattle.p8_image.specs.Loading.{image_in as image_of_file};
ghost use Rattle.p8_map.specs.Projects.{IsMapOf};
ghost use Rattle.p8_hint.specs.Projects.{IsHintsOf};
ghost use Rattle.p8_legend.specs.Projects.{IsLegendOf};
ghost use Rattle.p8_inputs.specs.Asks.{StopsAtProgram, program as program_ask, listing as listing_ask, mapping as mapping_ask, hinting as hinting_ask};
ghost use Rattle.p8_inputs.specs.Gathered.{IsProject, IsWhole, IsImageBuiltBy, AreBuiltBy, IsListingOf, StopsAtBuilding};
ghost use Rattle.p8_page.specs.Page.{Block, blocks_text, map_block};
ghost use Rattle.p8_inputs.specs.Runs.{HasProperTrees};
ghost use Rattle.p8_inputs.specs.Sources.{IsImageFrom, IsListingFrom, IsMapFrom, IsHintsFrom, IsProjectLegend, file_blocks, AreBlocksOf, AreProjectBlocks};
ghost use Rattle.p8_inputs.specs.declared.program.Format.TheVariants.{Source};
ghost use Rattle.p8_inputs.specs.Reads.{ReadsFor, ReadsForAll};
ghost use Rattle.p8_inputs.specs.Seen.{shelf_seen};

use crate::stop::Stop;
use p8_build::{BuildFault, Built, Size, accept, build, build_parts};
use p8_hint::project_hints;
use p8_image::{Image, listing};
use p8_io::Shelf;
use p8_legend::{Legend, legend_of_accepted};
use p8_map::{map_of_accepted, project_map};
use p8_objects::{GatherFault, Gathered, discard, gather};
use p8_opt::{build_short, build_short_parts};
use p8_page::{push_map, push_source};
use p8_tree::{Fault, List, Project, ProjectFile, Text};
use p8_words::NoMemory;
use std::alloc::{AllocError, Global};

/// An image with its legend.
#[derive(Drop)]
pub(crate) struct Explained {
    pub(crate) image: Image,
    pub(crate) legend: Legend,
}

/// An image with its legend, and with the blocks that a page has of its project.
#[derive(Drop)]
pub(crate) struct PagedImage {
    pub(crate) image: Image,
    pub(crate) legend: Legend,
    pub(crate) project: Vec<u8>,
}

/// The project of a top file, with the bytes of its files.
pub(crate) fn project_in<S: Shelf>(
    alloc: Global,
    file: &str,
    shelf: &mut S,
) -> Result<Gathered, Stop>
    ensures project { IfOk result (λ gathered. IsProject (S.files shelf.old) file.now (named_sources_of gathered.project)) }
    ensures sources { IfOk result (λ gathered. AreSources (S.files shelf.old) (named_sources_of gathered.project) gathered.sources) }
    ensures reads { (short : Bool) → ReadsFor (program_ask (Source short) file.now) (shelf_seen S.files S.log S.faults shelf.old shelf.new) result }
{
    match gather(alloc, shelf, file) {
        Ok(gathered) => Ok(gathered),
        Err(fault) => Err(stop_of_gathering(fault)),
    }
}

/// Why a project isn't gathered.
fn stop_of_gathering(fault: GatherFault) -> Stop
    ensures { (files : Files) (before now : ℕ) (short : Bool) (top : List ℕ)
        → Answers (shelved files before now) top (Err fault) → StopsAtProgram files before now (Source short) top result }
{
    match fault {
        GatherFault::Source { file, fault } => Stop::Refused {
            file,
            fault,
            size: None,
        },
        GatherFault::Missing { file, mention } => Stop::Missing { file, mention },
        GatherFault::ShelfFault { file } => Stop::Unread { file },
        GatherFault::NoMemory => Stop::NoMemory,
    }
}

/// The refusal of a file of a project that isn't built, as the file was read, with the size of what is too large.
fn refusal_in(
    alloc: Global,
    gathered: &Gathered,
    name: Text,
    fault: Fault,
    size: Option<Size>,
) -> Stop
    requires whole { IsWhole (named_sources_of gathered.now.project) }
    requires beside { length gathered.now.sources ≡ length (named_sources_of gathered.now.project) }
    requires refused { IsMeasured (named_sources_of gathered.now.project) name fault size }
    ensures { StopsAtBuilding (named_sources_of gathered.now.project) gathered.now.sources result }
{
    match gathered.file_named(alloc, name) {
        Ok(file) => Stop::Refused { file, fault, size },
        Err(_) => Stop::NoMemory,
    }
}

/// Why a project isn't built.
pub(crate) fn stop_of_building(alloc: Global, gathered: &Gathered, fault: BuildFault) -> Stop
    requires whole { IsWhole (named_sources_of gathered.now.project) }
    requires beside { length gathered.now.sources ≡ length (named_sources_of gathered.now.project) }
    requires refused { IsRefusal (named_sources_of gathered.now.project) fault }
    ensures { StopsAtBuilding (named_sources_of gathered.now.project) gathered.now.sources result }
{
    match fault {
        BuildFault::Source { file, fault, size } => refusal_in(alloc, gathered, file, fault, size),
        BuildFault::NoMemory => Stop::NoMemory,
    }
}

/// Builds a project to its image, with the short code of its methods where it is short.
fn built_image(alloc: Global, short: bool, project: &Project) -> Result<Image, BuildFault>
    requires { IsWhole (named_sources_of project.now) }
    ensures built { IfOk result (IsImageBuiltBy short (named_sources_of project.now)) }
    ensures refused { IfErr result (IsRefusal (named_sources_of project.now)) }
{
    if short {
        build_short(alloc, project)
    } else {
        build(alloc, project)
    }
}

/// Builds a project to its image and the objects of which that is made, with the short code of its methods where it is short.
fn built_parts(alloc: Global, short: bool, project: &Project) -> Result<Built, BuildFault>
    requires { IsWhole (named_sources_of project.now) }
    ensures built { IfOk result (λ built. AreBuiltBy short (named_sources_of project.now) built.objects) }
    ensures refused { IfErr result (IsRefusal (named_sources_of project.now)) }
{
    if short {
        build_short_parts(alloc, project)
    } else {
        build_parts(alloc, project)
    }
}

/// The image of a project.
fn image_of_project(alloc: Global, short: bool, gathered: &Gathered) -> Result<Image, Stop>
    requires whole { IsWhole (named_sources_of gathered.now.project) }
    requires beside { length gathered.now.sources ≡ length (named_sources_of gathered.now.project) }
    ensures image { IfOk result (IsImageBuiltBy short (named_sources_of gathered.now.project)) }
    ensures stopped { IfErr result (StopsAtBuilding (named_sources_of gathered.now.project) gathered.now.sources) }
{
    match built_image(alloc, short, &gathered.project) {
        Ok(image) => Ok(image),
        Err(fault) => Err(stop_of_building(alloc, gathered, fault)),
    }
}

/// The names of some files.
fn names_of(alloc: Global, files: &[ProjectFile]) -> Result<List<Text>, AllocError>
    ensures { IfOk result (λ names. names ≡ map (λ file. file.name) files.now) }
{
    let mut names = List::new(alloc);
    for file in files {
        names.push(Text::copy_of(alloc, file.name.as_slice())?)?;
    }
    Ok(names)
}

/// The listing of a project.
fn listing_of_project(alloc: Global, short: bool, gathered: &Gathered) -> Result<Vec<u8>, Stop>
    requires whole { IsWhole (named_sources_of gathered.now.project) }
    requires beside { length gathered.now.sources ≡ length (named_sources_of gathered.now.project) }
    ensures text { IfOk result (λ text. IsListingOf short (named_sources_of gathered.now.project) text.items) }
    ensures stopped { IfErr result (StopsAtBuilding (named_sources_of gathered.now.project) gathered.now.sources) }
{
    let built = match built_parts(alloc, short, &gathered.project) {
        Ok(built) => built,
        Err(fault) => return Err(stop_of_building(alloc, gathered, fault)),
    };
    let names = names_of(alloc, gathered.project.files.as_slice())?;
    let text = listing(alloc, names.as_slice(), built.objects.as_slice())?;
    Ok(text)
}

/// The map of a project.
fn map_of_project(alloc: Global, gathered: &Gathered) -> Result<Vec<u8>, Stop>
    requires whole { IsWhole (named_sources_of gathered.now.project) }
    requires beside { length gathered.now.sources ≡ length (named_sources_of gathered.now.project) }
    ensures text { IfOk result (λ text. IsMapOf gathered.now.sources (named_sources_of gathered.now.project) text.items) }
    ensures stopped { IfErr result (StopsAtBuilding (named_sources_of gathered.now.project) gathered.now.sources) }
{
    match project_map(alloc, &gathered.project, gathered.sources.as_slice()) {
        Ok(text) => Ok(text),
        Err(fault) => Err(stop_of_building(alloc, gathered, fault)),
    }
}

/// The hints at what is most likely a slip in a project.
fn hints_of_project(alloc: Global, gathered: &Gathered) -> Result<Vec<u8>, Stop>
    requires whole { IsWhole (named_sources_of gathered.now.project) }
    requires beside { length gathered.now.sources ≡ length (named_sources_of gathered.now.project) }
    ensures text { IfOk result (λ text. IsHintsOf gathered.now.sources (named_sources_of gathered.now.project) text.items) }
    ensures stopped { IfErr result (StopsAtBuilding (named_sources_of gathered.now.project) gathered.now.sources) }
{
    match project_hints(alloc, &gathered.project, gathered.sources.as_slice()) {
        Ok(text) => Ok(text),
        Err(fault) => Err(stop_of_building(alloc, gathered, fault)),
    }
}

/// The image of a project with its legend.
fn explained_project(alloc: Global, gathered: &Gathered) -> Result<Explained, Stop>
    requires whole { IsWhole (named_sources_of gathered.now.project) }
    requires beside { length gathered.now.sources ≡ length (named_sources_of gathered.now.project) }
    ensures image { IfOk result (λ read. IsImageBuiltBy false (named_sources_of gathered.now.project) read.image) }
    ensures legend { IfOk result (λ read. IsLegendOf gathered.now.sources (named_sources_of gathered.now.project) read.legend) }
    ensures stopped { IfErr result (StopsAtBuilding (named_sources_of gathered.now.project) gathered.now.sources) }
{
    let accepted = match accept(alloc, &gathered.project) {
        Ok(accepted) => accepted,
        Err(fault) => return Err(stop_of_building(alloc, gathered, fault)),
    };
    let files = gathered.project.files.as_slice();
    let legend = legend_of_accepted(alloc, files, gathered.sources.as_slice(), &accepted)?;
    let image = accepted.into_image();
    Ok(Explained { image, legend })
}

/// Appends the blocks of files, each with its name and its bytes.
fn push_files(out: &mut Vec<u8>, files: &[ProjectFile], sources: &[Text]) -> Result<(), NoMemory>
    requires { length sources.now ≡ length files.now }
    ensures { OnOk result (out.new.items ≡ out.old.items ++ blocks_text (file_blocks (map named_source_of files.now) sources.now)) }
{
    for i in 0..files.len() {
        push_source(out, files[i].name.as_slice(), sources[i].as_slice())?;
    }
    Ok(())
}

/// The blocks that a page has of a project: of its map, which is this text, and of its files.
fn blocks_of(
    alloc: Global,
    text: &[u8],
    files: &[ProjectFile],
    sources: &[Text],
) -> Result<Vec<u8>, NoMemory>
    requires { length sources.now ≡ length files.now }
    ensures { IfOk result (λ out. out.items ≡ blocks_text (map_block text.now ++ file_blocks (map named_source_of files.now) sources.now)) }
{
    let mut out = Vec::new(alloc);
    push_map(&mut out, text)?;
    push_files(&mut out, files, sources)?;
    Ok(out)
}

/// The image of a project with its legend, and with the blocks that a page has of it.
fn paged_project(alloc: Global, gathered: &Gathered) -> Result<PagedImage, Stop>
    requires whole { IsWhole (named_sources_of gathered.now.project) }
    requires beside { length gathered.now.sources ≡ length (named_sources_of gathered.now.project) }
    ensures image { IfOk result (λ read. IsImageBuiltBy false (named_sources_of gathered.now.project) read.image) }
    ensures legend { IfOk result (λ read. IsLegendOf gathered.now.sources (named_sources_of gathered.now.project) read.legend) }
    ensures blocks { IfOk result (λ read. (blocks : List Block) × AreBlocksOf gathered.now.sources (named_sources_of gathered.now.project) blocks ×
        (read.project.items ≡ blocks_text blocks)) }
    ensures stopped { IfErr result (StopsAtBuilding (named_sources_of gathered.now.project) gathered.now.sources) }
{
    let accepted = match accept(alloc, &gathered.project) {
        Ok(accepted) => accepted,
        Err(fault) => return Err(stop_of_building(alloc, gathered, fault)),
    };
    let files = gathered.project.files.as_slice();
    let sources = gathered.sources.as_slice();
    let legend = legend_of_accepted(alloc, files, sources, &accepted)?;
    let text = map_of_accepted(alloc, files, sources, &accepted)?;
    let project = blocks_of(alloc, &text, files, sources)?;
    let image = accepted.into_image();
    Ok(PagedImage {
        image,
        legend,
        project,
    })
}

/// The image of the project of a top file.
pub(crate) fn image_in<S: Shelf>(
    alloc: Global,
    short: bool,
    file: &str,
    shelf: &mut S,
) -> Result<Image, Stop>
    ensures image { IfOk result (λ image. HasProperTrees (S.files shelf.old) (Source short) file.now image.file) }
    ensures memory { IfOk result (λ image. image ≡ image_of_file image.file) }
    ensures reads { ReadsFor (program_ask (Source short) file.now) (shelf_seen S.files S.log S.faults shelf.old shelf.new) result }
{
    let gathered = project_in(alloc, file, shelf)?;
    let image = image_of_project(alloc, short, &gathered);
    discard(gathered);
    image
}

/// The image of the project of a top file with its legend.
pub(crate) fn explained_in<S: Shelf>(
    alloc: Global,
    file: &str,
    shelf: &mut S,
) -> Result<Explained, Stop>
    ensures image { IfOk result (λ read. HasProperTrees (S.files shelf.old) (Source false) file.now read.image.file) }
    ensures memory { IfOk result (λ read. read.image ≡ image_of_file read.image.file) }
    ensures legend { IfOk result (λ read. IsProjectLegend (S.files shelf.old) file.now read.legend) }
    ensures reads { ReadsFor (program_ask (Source false) file.now) (shelf_seen S.files S.log S.faults shelf.old shelf.new) result }
{
    let gathered = project_in(alloc, file, shelf)?;
    let read = explained_project(alloc, &gathered);
    discard(gathered);
    read
}

/// The image of the project of a top file with its legend, and with the blocks that a page has of it.
pub(crate) fn paged_in<S: Shelf>(
    alloc: Global,
    file: &str,
    shelf: &mut S,
) -> Result<PagedImage, Stop>
    ensures image { IfOk result (λ read. HasProperTrees (S.files shelf.old) (Source false) file.now read.image.file) }
    ensures memory { IfOk result (λ read. read.image ≡ image_of_file read.image.file) }
    ensures legend { IfOk result (λ read. IsProjectLegend (S.files shelf.old) file.now read.legend) }
    ensures blocks { IfOk result (λ read. (blocks : List Block) × AreProjectBlocks (S.files shelf.old) file.now blocks ×
        (read.project.items ≡ blocks_text blocks)) }
    ensures reads { ReadsFor (program_ask (Source false) file.now) (shelf_seen S.files S.log S.faults shelf.old shelf.new) result }
{
    let gathered = project_in(alloc, file, shelf)?;
    let read = paged_project(alloc, &gathered);
    discard(gathered);
    read
}

/// The listing of the project of a top file.
fn listing_in<S: Shelf>(
    alloc: Global,
    short: bool,
    file: &str,
    shelf: &mut S,
) -> Result<Vec<u8>, Stop>
    ensures text { IfOk result (λ text. IsListingFrom (S.files shelf.old) short file.now text.items) }
    ensures reads { ReadsFor (listing_ask short file.now) (shelf_seen S.files S.log S.faults shelf.old shelf.new) result }
{
    let gathered = project_in(alloc, file, shelf)?;
    let text = listing_of_project(alloc, short, &gathered);
    discard(gathered);
    text
}

/// The map of the project of a top file.
fn map_in<S: Shelf>(alloc: Global, file: &str, shelf: &mut S) -> Result<Vec<u8>, Stop>
    ensures text { IfOk result (λ text. IsMapFrom (S.files shelf.old) file.now text.items) }
    ensures reads { ReadsFor (mapping_ask file.now) (shelf_seen S.files S.log S.faults shelf.old shelf.new) result }
{
    let gathered = project_in(alloc, file, shelf)?;
    let text = map_of_project(alloc, &gathered);
    discard(gathered);
    text
}

/// The hints at what is most likely a slip in the project of a top file.
fn hints_in<S: Shelf>(alloc: Global, file: &str, shelf: &mut S) -> Result<Vec<u8>, Stop>
    ensures text { IfOk result (λ text. IsHintsFrom (S.files shelf.old) file.now text.items) }
    ensures reads { ReadsFor (hinting_ask file.now) (shelf_seen S.files S.log S.faults shelf.old shelf.new) result }
{
    let gathered = project_in(alloc, file, shelf)?;
    let text = hints_of_project(alloc, &gathered);
    discard(gathered);
    text
}

/// The image of the project of sources whose top file has this name, with the short code of its methods where it is short. Of the shelf the files
/// of the project are read, each once and in their order, and at an error no more than a beginning of them.
///
/// # Errors
///
/// What comes first: `Missing` and `Unread` of a file of the project, `Refused` of one with its first refusal while the project is
/// gathered ([`gather`](p8_objects::gather)) or else when it is built ([`build`](p8_build::build)), with short code or not, and then with the size of
/// what is too large. `NoMemory` may come at any point. The shelf's files stay as they were, and its count never falls.
pub fn image_of_source<S: Shelf>(
    alloc: Global,
    short: bool,
    file: &str,
    shelf: &mut S,
) -> Result<Image, Stop>
    ensures image { IfOk result (λ image. IsImageFrom (S.files shelf.old) short file.now image.file) }
    ensures trees { IfOk result (λ image. HasProperTrees (S.files shelf.old) (Source short) file.now image.file) }
    ensures reads { ReadsForAll (program_ask (Source short) file.now ∷ []) (shelf_seen S.files S.log S.faults shelf.old shelf.new) result }
{
    image_in(alloc, short, file, shelf)
}

/// The listing of the project of sources whose top file has this name: see [`listing`](p8_image::listing).
///
/// # Errors
///
/// Those of [`image_of_source`].
pub fn listing_of_source<S: Shelf>(
    alloc: Global,
    short: bool,
    file: &str,
    shelf: &mut S,
) -> Result<Vec<u8>, Stop>
    ensures text { IfOk result (λ text. IsListingFrom (S.files shelf.old) short file.now text.items) }
    ensures reads { ReadsForAll (listing_ask short file.now ∷ []) (shelf_seen S.files S.log S.faults shelf.old shelf.new) result }
{
    listing_in(alloc, short, file, shelf)
}

/// The map of the project of sources whose top file has this name: see [`project_map`](p8_map::project_map).
///
/// # Errors
///
/// Those of [`image_of_source`].
pub fn map_of_source<S: Shelf>(alloc: Global, file: &str, shelf: &mut S) -> Result<Vec<u8>, Stop>
    ensures text { IfOk result (λ text. IsMapFrom (S.files shelf.old) file.now text.items) }
    ensures reads { ReadsForAll (mapping_ask file.now ∷ []) (shelf_seen S.files S.log S.faults shelf.old shelf.new) result }
{
    map_in(alloc, file, shelf)
}

/// The hints at what is accepted in the project of sources whose top file has this name, and is most likely a slip: see
/// [`project_hints`](p8_hint::project_hints).
///
/// # Errors
///
/// Those of [`image_of_source`].
pub fn hints_of_source<S: Shelf>(alloc: Global, file: &str, shelf: &mut S) -> Result<Vec<u8>, Stop>
    ensures text { IfOk result (λ text. IsHintsFrom (S.files shelf.old) file.now text.items) }
    ensures reads { ReadsForAll (hinting_ask file.now ∷ []) (shelf_seen S.files S.log S.faults shelf.old shelf.new) result }
{
    hints_in(alloc, file, shelf)
}
