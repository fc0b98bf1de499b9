//! Written by `tools/make_completions.py`: what `completions` prints.

#[rattlefmt::skip]
pub(crate) const BASH: &str = r#"_abootimg_files() {
    local found
    while IFS= read -r found; do
        COMPREPLY+=("$found")
    done < <(compgen -f -- "$1")
}
_abootimg_word_files() {
    local found is_plain=yes
    while IFS= read -r found; do
        case $found in
            *[!A-Za-z0-9._/-]*) is_plain= ;;
        esac
        if [ -d "$found" ]; then
            found=$found/
            compopt -o nospace 2>/dev/null
        fi
        COMPREPLY+=("@$found")
    done < <(compgen -f -- "${1#@}")
    [ -z "$is_plain" ] || compopt +o filenames 2>/dev/null
}
_abootimg_tool() {
    local words
    case $2 in
        -*)
            case $1 in
                mkbootimg) words='--kernel --ramdisk --second --dtb --recovery_dtbo --recovery_acpio --cmdline --vendor_cmdline --base --kernel_offset --ramdisk_offset --second_offset --dtb_offset --os_version --os_patch_level --tags_offset --board --pagesize --id --header_version --output -o --vendor_boot --vendor_ramdisk --vendor_bootconfig --ramdisk_type --ramdisk_name --vendor_ramdisk_fragment --board_id0 --board_id1 --board_id2 --board_id3 --board_id4 --board_id5 --board_id6 --board_id7 --board_id8 --board_id9 --board_id10 --board_id11 --board_id12 --board_id13 --board_id14 --board_id15 -h --help' ;;
                unpack_bootimg) words='--boot_img --out --format -0 --null -h --help' ;;
                *) words='-h --help' ;;
            esac ;;
        *)
            case $3 in
                --format) words='info mkbootimg' ;;
                --ramdisk_type) words='none platform recovery dlkm' ;;
                *)
                    _abootimg_files "$2"
                    return ;;
            esac ;;
    esac
    compopt +o filenames 2>/dev/null
    COMPREPLY=($(compgen -W "$words" -- "$2"))
}
_abootimg() {
    local word=${2-${COMP_WORDS[COMP_CWORD]}} words= at=1
    COMPREPLY=()
    case " simg2img img2simg mkbootimg simg2simg unpack_bootimg " in
        *" ${COMP_WORDS[0]##*/} "*)
            _abootimg_tool "${COMP_WORDS[0]##*/}" "$word" "${COMP_WORDS[COMP_CWORD-1]}"
            return ;;
    esac
    if [ "${COMP_WORDS[1]}" = as ] && [ "$COMP_CWORD" -gt 2 ]; then
        _abootimg_tool "${COMP_WORDS[2]}" "$word" "${COMP_WORDS[COMP_CWORD-1]}"
        return
    fi
    while [ "$at" -lt "$COMP_CWORD" ] && [ "${COMP_WORDS[at]#-}" != "${COMP_WORDS[at]}" ]; do
        at=$((at + 1))
    done
    case $word in
        \\@*) word=${word#?} ;;
    esac
    if [ "${word#@}" != "$word" ]; then
        _abootimg_word_files "$word"
        return
    elif [ "$at" = "$COMP_CWORD" ]; then
        words=' expand list sparse cut flash verify pack repack unpack info completions help as -v --verbose -q --quiet -h --help -V --version'
    elif [ "${COMP_WORDS[1]}" = as ] && [ "$COMP_CWORD" = 2 ]; then
        words='simg2img img2simg mkbootimg simg2simg unpack_bootimg'
    elif [ "${word#-}" != "$word" ]; then
        case ${COMP_WORDS[at]} in
            expand) words=' --sync --mounted -v --verbose -q --quiet -h --help' ;;
            list) words=' -v --verbose -q --quiet -h --help' ;;
            sparse) words=' --block --sync --mounted -v --verbose -q --quiet -h --help' ;;
            cut) words=' --raw --sync --mounted -v --verbose -q --quiet -h --help' ;;
            flash) words=' --raw --from --mounted -v --verbose -q --quiet -h --help' ;;
            verify) words=' --raw -v --verbose -q --quiet -h --help' ;;
            pack) words=' --vendor --version --page --kernel --ramdisk --second --recovery-dtbo --dtb --signature --bootconfig --kernel-addr --ramdisk-addr --tags-addr --second-addr --dtb-addr --base --kernel-offset --ramdisk-offset --second-offset --tags-offset --dtb-offset --os --os-number --name --cmdline --board-id --fragment --escaped --sync --mounted -v --verbose -q --quiet -h --help' ;;
            repack) words=' --page --keep-trailing --kernel --ramdisk --second --recovery-dtbo --dtb --signature --bootconfig --kernel-addr --ramdisk-addr --tags-addr --second-addr --dtb-addr --base --kernel-offset --ramdisk-offset --second-offset --tags-offset --dtb-offset --os --os-number --name --cmdline --board-id --fragment --escaped --sync --mounted -v --verbose -q --quiet -h --help' ;;
            unpack) words=' --words --sync --mounted -v --verbose -q --quiet -h --help' ;;
            info) words=' --check --hex -v --verbose -q --quiet -h --help' ;;
            completions) words=' -v --verbose -q --quiet -h --help' ;;
        esac
    elif [ "${COMP_WORDS[at]}" = completions ]; then
        words='bash zsh fish'
    elif [ "${COMP_WORDS[at]}" = help ]; then
        words='expand list sparse cut flash verify pack repack unpack info completions'
    else
        _abootimg_files "$word"
        return
    fi
    compopt +o filenames 2>/dev/null
    COMPREPLY=($(compgen -W "$words" -- "$word"))
}
complete -o filenames -F _abootimg abootimg simg2img img2simg mkbootimg simg2simg unpack_bootimg
"#;

#[rattlefmt::skip]
pub(crate) const ZSH: &str = r#"#compdef abootimg simg2img img2simg mkbootimg simg2simg unpack_bootimg
_abootimg_tool() {
    if [[ $words[CURRENT] == --*=* ]]; then
        compset -P 1 '*='
        _files
    elif [[ $words[CURRENT] == -* ]]; then
        case $1 in
            mkbootimg) compadd -- --kernel --ramdisk --second --dtb --recovery_dtbo --recovery_acpio --cmdline --vendor_cmdline --base --kernel_offset --ramdisk_offset --second_offset --dtb_offset --os_version --os_patch_level --tags_offset --board --pagesize --id --header_version --output -o --vendor_boot --vendor_ramdisk --vendor_bootconfig --ramdisk_type --ramdisk_name --vendor_ramdisk_fragment --board_id0 --board_id1 --board_id2 --board_id3 --board_id4 --board_id5 --board_id6 --board_id7 --board_id8 --board_id9 --board_id10 --board_id11 --board_id12 --board_id13 --board_id14 --board_id15 -h --help ;;
            unpack_bootimg) compadd -- --boot_img --out --format -0 --null -h --help ;;
            *) compadd -- -h --help ;;
        esac
    else
        case $words[CURRENT-1] in
            --format) compadd -- info mkbootimg ;;
            --ramdisk_type) compadd -- none platform recovery dlkm ;;
            *) _files ;;
        esac
    fi
}
_abootimg() {
    local at=2
    if [[ " simg2img img2simg mkbootimg simg2simg unpack_bootimg " == *" ${words[1]:t} "* ]]; then
        _abootimg_tool ${words[1]:t}
        return
    fi
    if [[ $words[2] == as ]] && (( CURRENT > 3 )); then
        _abootimg_tool $words[3]
        return
    fi
    while (( at < CURRENT )) && [[ $words[at] == -* ]]; do
        (( at += 1 ))
    done
    if compset -P @; then
        _files
        return
    fi
    if (( at == CURRENT )); then
        compadd -- expand list sparse cut flash verify pack repack unpack info completions help as -v --verbose -q --quiet -h --help -V --version
        return
    fi
    if [[ $words[2] == as ]] && (( CURRENT == 3 )); then
        compadd -- simg2img img2simg mkbootimg simg2simg unpack_bootimg
        return
    fi
    if [[ $words[CURRENT] == --*=* ]]; then
        compset -P 1 '*='
        _files
    elif [[ $words[CURRENT] == -* ]]; then
        case $words[at] in
            expand) compadd -- --sync --mounted -v --verbose -q --quiet -h --help ;;
            list) compadd -- -v --verbose -q --quiet -h --help ;;
            sparse) compadd -- --block --sync --mounted -v --verbose -q --quiet -h --help ;;
            cut) compadd -- --raw --sync --mounted -v --verbose -q --quiet -h --help ;;
            flash) compadd -- --raw --from --mounted -v --verbose -q --quiet -h --help ;;
            verify) compadd -- --raw -v --verbose -q --quiet -h --help ;;
            pack) compadd -- --vendor --version --page --kernel --ramdisk --second --recovery-dtbo --dtb --signature --bootconfig --kernel-addr --ramdisk-addr --tags-addr --second-addr --dtb-addr --base --kernel-offset --ramdisk-offset --second-offset --tags-offset --dtb-offset --os --os-number --name --cmdline --board-id --fragment --escaped --sync --mounted -v --verbose -q --quiet -h --help ;;
            repack) compadd -- --page --keep-trailing --kernel --ramdisk --second --recovery-dtbo --dtb --signature --bootconfig --kernel-addr --ramdisk-addr --tags-addr --second-addr --dtb-addr --base --kernel-offset --ramdisk-offset --second-offset --tags-offset --dtb-offset --os --os-number --name --cmdline --board-id --fragment --escaped --sync --mounted -v --verbose -q --quiet -h --help ;;
            unpack) compadd -- --words --sync --mounted -v --verbose -q --quiet -h --help ;;
            info) compadd -- --check --hex -v --verbose -q --quiet -h --help ;;
            completions) compadd -- -v --verbose -q --quiet -h --help ;;
        esac
    elif [[ $words[at] == completions ]]; then
        compadd -- bash zsh fish
    elif [[ $words[at] == help ]]; then
        compadd -- expand list sparse cut flash verify pack repack unpack info completions
    else
        _files
    fi
}
if [ "$funcstack[1]" = _abootimg ]; then
    _abootimg "$@"
else
    compdef _abootimg abootimg simg2img img2simg mkbootimg simg2simg unpack_bootimg
fi
"#;

#[rattlefmt::skip]
pub(crate) const FISH: &str = r#"complete -c abootimg -n __fish_use_subcommand -l verbose -s v -d 'Tells of a refusal in a second line which file it is about, and why'
complete -c abootimg -n __fish_use_subcommand -l quiet -s q -d 'Does not show on a terminal how far the work is'
complete -c abootimg -n __fish_use_subcommand -f -a expand -d 'Writes the raw image that a sparse image stands for, or several together'
complete -c abootimg -n '__fish_seen_subcommand_from expand' -l sync -d 'Syncs what it wrote, so that it stands after a loss of power'
complete -c abootimg -n '__fish_seen_subcommand_from expand' -l mounted -d 'Writes a block device though it is mounted, or in use as swap'
complete -c abootimg -n '__fish_seen_subcommand_from expand' -l verbose -s v -d 'Tells of a refusal in a second line which file it is about, and why'
complete -c abootimg -n '__fish_seen_subcommand_from expand' -l quiet -s q -d 'Does not show on a terminal how far the work is'
complete -c abootimg -n __fish_use_subcommand -f -a list -d 'Prints the header and every chunk of a sparse image'
complete -c abootimg -n '__fish_seen_subcommand_from list' -l verbose -s v -d 'Tells of a refusal in a second line which file it is about, and why'
complete -c abootimg -n '__fish_seen_subcommand_from list' -l quiet -s q -d 'Does not show on a terminal how far the work is'
complete -c abootimg -n __fish_use_subcommand -f -a sparse -d 'Writes a raw image as a sparse image'
complete -c abootimg -n '__fish_seen_subcommand_from sparse' -l block -r -d 'Bytes of a block: a multiple of 4, at most 65536'
complete -c abootimg -n '__fish_seen_subcommand_from sparse' -l sync -d 'Syncs what it wrote, so that it stands after a loss of power'
complete -c abootimg -n '__fish_seen_subcommand_from sparse' -l mounted -d 'Writes a block device though it is mounted, or in use as swap'
complete -c abootimg -n '__fish_seen_subcommand_from sparse' -l verbose -s v -d 'Tells of a refusal in a second line which file it is about, and why'
complete -c abootimg -n '__fish_seen_subcommand_from sparse' -l quiet -s q -d 'Does not show on a terminal how far the work is'
complete -c abootimg -n __fish_use_subcommand -f -a cut -d 'Cuts an image into pieces, sparse images that a device takes one by one'
complete -c abootimg -n '__fish_seen_subcommand_from cut' -l raw -r -d 'IN is a raw image in blocks of N bytes: a multiple of 4, at most 65536'
complete -c abootimg -n '__fish_seen_subcommand_from cut' -l sync -d 'Syncs what it wrote, so that it stands after a loss of power'
complete -c abootimg -n '__fish_seen_subcommand_from cut' -l mounted -d 'Writes a block device though it is mounted, or in use as swap'
complete -c abootimg -n '__fish_seen_subcommand_from cut' -l verbose -s v -d 'Tells of a refusal in a second line which file it is about, and why'
complete -c abootimg -n '__fish_seen_subcommand_from cut' -l quiet -s q -d 'Does not show on a terminal how far the work is'
complete -c abootimg -n __fish_use_subcommand -f -a flash -d 'Flashes an image to a partition, whole or in pieces for a download limit'
complete -c abootimg -n '__fish_seen_subcommand_from flash' -l raw -r -d 'IN is a raw image in blocks of N bytes: a multiple of 4, at most 65536'
complete -c abootimg -n '__fish_seen_subcommand_from flash' -l from -r -d 'Begins with piece J, counted from 1, and only plans those before it'
complete -c abootimg -n '__fish_seen_subcommand_from flash' -l mounted -d 'Writes a block device though it is mounted, or in use as swap'
complete -c abootimg -n '__fish_seen_subcommand_from flash' -l verbose -s v -d 'Tells of a refusal in a second line which file it is about, and why'
complete -c abootimg -n '__fish_seen_subcommand_from flash' -l quiet -s q -d 'Does not show on a terminal how far the work is'
complete -c abootimg -n __fish_use_subcommand -f -a verify -d 'Compares an image with what stands on a partition, and writes nothing'
complete -c abootimg -n '__fish_seen_subcommand_from verify' -l raw -r -d 'IN is a raw image in blocks of N bytes: a multiple of 4, at most 65536'
complete -c abootimg -n '__fish_seen_subcommand_from verify' -l verbose -s v -d 'Tells of a refusal in a second line which file it is about, and why'
complete -c abootimg -n '__fish_seen_subcommand_from verify' -l quiet -s q -d 'Does not show on a terminal how far the work is'
complete -c abootimg -n __fish_use_subcommand -f -a pack -d 'Writes a boot image or a vendor boot image of its parts'
complete -c abootimg -n '__fish_seen_subcommand_from pack' -l vendor -d 'Writes a vendor boot image'
complete -c abootimg -n '__fish_seen_subcommand_from pack' -l version -r -d 'The header version, 0 to 4, with --vendor 3 or 4'
complete -c abootimg -n '__fish_seen_subcommand_from pack' -l page -r -d 'Bytes in a page, a power of two from 2048 to 131072; boot 3 and 4 always have 4096'
complete -c abootimg -n '__fish_seen_subcommand_from pack' -l kernel -r -d 'The kernel (boot)'
complete -c abootimg -n '__fish_seen_subcommand_from pack' -l ramdisk -r -d 'The ramdisk (boot, vendor 3)'
complete -c abootimg -n '__fish_seen_subcommand_from pack' -l second -r -d 'The second stage (boot 0 to 2)'
complete -c abootimg -n '__fish_seen_subcommand_from pack' -l recovery-dtbo -r -d 'The recovery DTBO (boot 1, 2)'
complete -c abootimg -n '__fish_seen_subcommand_from pack' -l dtb -r -d 'The device tree blob (boot 2, vendor)'
complete -c abootimg -n '__fish_seen_subcommand_from pack' -l signature -r -d 'The boot signature (boot 4)'
complete -c abootimg -n '__fish_seen_subcommand_from pack' -l bootconfig -r -d 'The bootconfig (vendor 4)'
complete -c abootimg -n '__fish_seen_subcommand_from pack' -l kernel-addr -r -d 'Where the kernel is loaded (boot 0 to 2, vendor)'
complete -c abootimg -n '__fish_seen_subcommand_from pack' -l ramdisk-addr -r -d 'Where the ramdisk is loaded (boot 0 to 2, vendor)'
complete -c abootimg -n '__fish_seen_subcommand_from pack' -l tags-addr -r -d 'Where the kernel\'s tags are loaded (boot 0 to 2, vendor)'
complete -c abootimg -n '__fish_seen_subcommand_from pack' -l second-addr -r -d 'Where the second stage is loaded (boot 0 to 2)'
complete -c abootimg -n '__fish_seen_subcommand_from pack' -l dtb-addr -r -d 'Where the device tree blob is loaded, in 64 bits (boot 2, vendor)'
complete -c abootimg -n '__fish_seen_subcommand_from pack' -l base -r -d 'What the offsets count from: addresses that aren\'t given are sums (boot 0 to 2, vendor)'
complete -c abootimg -n '__fish_seen_subcommand_from pack' -l kernel-offset -r -d 'Of the kernel from the base; 0x8000'
complete -c abootimg -n '__fish_seen_subcommand_from pack' -l ramdisk-offset -r -d 'Of the ramdisk from the base; 0x1000000'
complete -c abootimg -n '__fish_seen_subcommand_from pack' -l second-offset -r -d 'Of the second stage from the base; 0xf00000'
complete -c abootimg -n '__fish_seen_subcommand_from pack' -l tags-offset -r -d 'Of the kernel\'s tags from the base; 0x100'
complete -c abootimg -n '__fish_seen_subcommand_from pack' -l dtb-offset -r -d 'Of the device tree blob from the base; 0x1f00000'
complete -c abootimg -n '__fish_seen_subcommand_from pack' -l os -r -d 'The OS version and its patch level (boot)'
complete -c abootimg -n '__fish_seen_subcommand_from pack' -l os-number -r -d 'The same as the number that the header has (boot)'
complete -c abootimg -n '__fish_seen_subcommand_from pack' -l name -r -d 'The product\'s name, at most 15 bytes (boot 0 to 2, vendor)'
complete -c abootimg -n '__fish_seen_subcommand_from pack' -l cmdline -r -d 'The kernel\'s command line, at most 1535 bytes (vendor: 2047)'
complete -c abootimg -n '__fish_seen_subcommand_from pack' -l board-id -r -d 'Number K, from 0 to 15, of the board id of fragment I, counted from 0, is N (vendor 4)'
complete -c abootimg -n '__fish_seen_subcommand_from pack' -l fragment -r -d 'A ramdisk, before those behind OUT (vendor 4)'
complete -c abootimg -n '__fish_seen_subcommand_from pack' -l escaped -d 'In paths, texts and NAME \\x and two hexadecimal digits stand for a byte'
complete -c abootimg -n '__fish_seen_subcommand_from pack' -l sync -d 'Syncs what it wrote, so that it stands after a loss of power'
complete -c abootimg -n '__fish_seen_subcommand_from pack' -l mounted -d 'Writes a block device though it is mounted, or in use as swap'
complete -c abootimg -n '__fish_seen_subcommand_from pack' -l verbose -s v -d 'Tells of a refusal in a second line which file it is about, and why'
complete -c abootimg -n '__fish_seen_subcommand_from pack' -l quiet -s q -d 'Does not show on a terminal how far the work is'
complete -c abootimg -n __fish_use_subcommand -f -a repack -d 'Writes an image again, with the given parts and fields in place of its own'
complete -c abootimg -n '__fish_seen_subcommand_from repack' -l page -r -d 'Bytes in a page, a power of two from 2048 to 131072; boot 3 and 4 always have 4096'
complete -c abootimg -n '__fish_seen_subcommand_from repack' -l keep-trailing -d 'Writes what stands behind the image behind the new one'
complete -c abootimg -n '__fish_seen_subcommand_from repack' -l kernel -r -d 'The kernel (boot)'
complete -c abootimg -n '__fish_seen_subcommand_from repack' -l ramdisk -r -d 'The ramdisk (boot, vendor 3)'
complete -c abootimg -n '__fish_seen_subcommand_from repack' -l second -r -d 'The second stage (boot 0 to 2)'
complete -c abootimg -n '__fish_seen_subcommand_from repack' -l recovery-dtbo -r -d 'The recovery DTBO (boot 1, 2)'
complete -c abootimg -n '__fish_seen_subcommand_from repack' -l dtb -r -d 'The device tree blob (boot 2, vendor)'
complete -c abootimg -n '__fish_seen_subcommand_from repack' -l signature -r -d 'The boot signature (boot 4)'
complete -c abootimg -n '__fish_seen_subcommand_from repack' -l bootconfig -r -d 'The bootconfig (vendor 4)'
complete -c abootimg -n '__fish_seen_subcommand_from repack' -l kernel-addr -r -d 'Where the kernel is loaded (boot 0 to 2, vendor)'
complete -c abootimg -n '__fish_seen_subcommand_from repack' -l ramdisk-addr -r -d 'Where the ramdisk is loaded (boot 0 to 2, vendor)'
complete -c abootimg -n '__fish_seen_subcommand_from repack' -l tags-addr -r -d 'Where the kernel\'s tags are loaded (boot 0 to 2, vendor)'
complete -c abootimg -n '__fish_seen_subcommand_from repack' -l second-addr -r -d 'Where the second stage is loaded (boot 0 to 2)'
complete -c abootimg -n '__fish_seen_subcommand_from repack' -l dtb-addr -r -d 'Where the device tree blob is loaded, in 64 bits (boot 2, vendor)'
complete -c abootimg -n '__fish_seen_subcommand_from repack' -l base -r -d 'What the offsets count from: addresses that aren\'t given are sums (boot 0 to 2, vendor)'
complete -c abootimg -n '__fish_seen_subcommand_from repack' -l kernel-offset -r -d 'Of the kernel from the base; 0x8000'
complete -c abootimg -n '__fish_seen_subcommand_from repack' -l ramdisk-offset -r -d 'Of the ramdisk from the base; 0x1000000'
complete -c abootimg -n '__fish_seen_subcommand_from repack' -l second-offset -r -d 'Of the second stage from the base; 0xf00000'
complete -c abootimg -n '__fish_seen_subcommand_from repack' -l tags-offset -r -d 'Of the kernel\'s tags from the base; 0x100'
complete -c abootimg -n '__fish_seen_subcommand_from repack' -l dtb-offset -r -d 'Of the device tree blob from the base; 0x1f00000'
complete -c abootimg -n '__fish_seen_subcommand_from repack' -l os -r -d 'The OS version and its patch level (boot)'
complete -c abootimg -n '__fish_seen_subcommand_from repack' -l os-number -r -d 'The same as the number that the header has (boot)'
complete -c abootimg -n '__fish_seen_subcommand_from repack' -l name -r -d 'The product\'s name, at most 15 bytes (boot 0 to 2, vendor)'
complete -c abootimg -n '__fish_seen_subcommand_from repack' -l cmdline -r -d 'The kernel\'s command line, at most 1535 bytes (vendor: 2047)'
complete -c abootimg -n '__fish_seen_subcommand_from repack' -l board-id -r -d 'Number K, from 0 to 15, of the board id of fragment I, counted from 0, is N (vendor 4)'
complete -c abootimg -n '__fish_seen_subcommand_from repack' -l fragment -r -d 'A ramdisk, before those behind OUT (vendor 4)'
complete -c abootimg -n '__fish_seen_subcommand_from repack' -l escaped -d 'In paths, texts and NAME \\x and two hexadecimal digits stand for a byte'
complete -c abootimg -n '__fish_seen_subcommand_from repack' -l sync -d 'Syncs what it wrote, so that it stands after a loss of power'
complete -c abootimg -n '__fish_seen_subcommand_from repack' -l mounted -d 'Writes a block device though it is mounted, or in use as swap'
complete -c abootimg -n '__fish_seen_subcommand_from repack' -l verbose -s v -d 'Tells of a refusal in a second line which file it is about, and why'
complete -c abootimg -n '__fish_seen_subcommand_from repack' -l quiet -s q -d 'Does not show on a terminal how far the work is'
complete -c abootimg -n __fish_use_subcommand -f -a unpack -d 'Writes the sections of a boot image or vendor boot image to files'
complete -c abootimg -n '__fish_seen_subcommand_from unpack' -l words -d 'Also writes DIR/pack.words, with which pack @DIR/pack.words OUT makes the image again'
complete -c abootimg -n '__fish_seen_subcommand_from unpack' -l sync -d 'Syncs what it wrote, so that it stands after a loss of power'
complete -c abootimg -n '__fish_seen_subcommand_from unpack' -l mounted -d 'Writes a block device though it is mounted, or in use as swap'
complete -c abootimg -n '__fish_seen_subcommand_from unpack' -l verbose -s v -d 'Tells of a refusal in a second line which file it is about, and why'
complete -c abootimg -n '__fish_seen_subcommand_from unpack' -l quiet -s q -d 'Does not show on a terminal how far the work is'
complete -c abootimg -n __fish_use_subcommand -f -a info -d 'Prints what the header of a boot image or vendor boot image says'
complete -c abootimg -n '__fish_seen_subcommand_from info' -l check -d 'Tells why an answer of the check is no, and is refused then'
complete -c abootimg -n '__fish_seen_subcommand_from info' -l hex -d 'Prints addresses and sizes as 0x.., and the OS as --os takes it'
complete -c abootimg -n '__fish_seen_subcommand_from info' -l verbose -s v -d 'Tells of a refusal in a second line which file it is about, and why'
complete -c abootimg -n '__fish_seen_subcommand_from info' -l quiet -s q -d 'Does not show on a terminal how far the work is'
complete -c abootimg -n __fish_use_subcommand -f -a completions -d 'Prints what a shell needs to complete the words of this program'
complete -c abootimg -n '__fish_seen_subcommand_from completions' -l verbose -s v -d 'Tells of a refusal in a second line which file it is about, and why'
complete -c abootimg -n '__fish_seen_subcommand_from completions' -l quiet -s q -d 'Does not show on a terminal how far the work is'
complete -c abootimg -n __fish_use_subcommand -f -a help -d 'Prints the help of a command'
complete -c abootimg -n __fish_use_subcommand -f -a as -d 'Reads the words as one of AOSP\'s tools does'
complete -c abootimg -n 'test (count (commandline -opc)) = 2; and __fish_seen_subcommand_from as' -f -a 'simg2img img2simg mkbootimg simg2simg unpack_bootimg'
complete -c abootimg -n 'string match -q -- \'@*\' (commandline -ct)' -a '(complete -C "\'\' "(string sub -s 2 -- (commandline -ct)) | string replace -r -- \'^\' @)'
complete -c abootimg -n '__fish_seen_subcommand_from completions' -f -a 'bash zsh fish'
complete -c abootimg -n '__fish_seen_subcommand_from help' -f -a 'expand list sparse cut flash verify pack repack unpack info completions'
complete -c abootimg -n 'test (count (commandline -opc)) -gt 2; and test (commandline -opc)[2] = as' -f -a '(complete -C (string join \' \' -- (string escape -- (commandline -opc)[3..-1]) (commandline -ct)))'
complete -c mkbootimg -l kernel -r -d 'The kernel'
complete -c mkbootimg -l ramdisk -r -d 'The ramdisk'
complete -c mkbootimg -l second -r -d 'The second stage'
complete -c mkbootimg -l dtb -r -d 'The device tree blob'
complete -c mkbootimg -l recovery_dtbo -r -d 'The recovery DTBO'
complete -c mkbootimg -l recovery_acpio -r -d 'The recovery ACPIO, in the place of the DTBO'
complete -c mkbootimg -l cmdline -r -d 'The kernel\'s command line'
complete -c mkbootimg -l vendor_cmdline -r -d 'The command line of a vendor boot image'
complete -c mkbootimg -l base -r -d 'What the offsets count from'
complete -c mkbootimg -l kernel_offset -r -d 'Of the kernel from the base'
complete -c mkbootimg -l ramdisk_offset -r -d 'Of the ramdisk from the base'
complete -c mkbootimg -l second_offset -r -d 'Of the second stage from the base'
complete -c mkbootimg -l dtb_offset -r -d 'Of the device tree blob from the base'
complete -c mkbootimg -l os_version -r -d 'The OS version, A.B.C'
complete -c mkbootimg -l os_patch_level -r -d 'The patch level, YYYY-MM'
complete -c mkbootimg -l tags_offset -r -d 'Of the kernel\'s tags from the base'
complete -c mkbootimg -l board -r -d 'The product\'s name, at most 15 bytes'
complete -c mkbootimg -l pagesize -r -d 'Bytes in a page: 2048, 4096, 8192 or 16384'
complete -c mkbootimg -l id -d 'Prints the id of the image; only where it has none'
complete -c mkbootimg -l header_version -r -d 'The header version, 0 to 4'
complete -c mkbootimg -l output -r -d 'The boot image, which is created or emptied'
complete -c mkbootimg -s o -r -d 'The same as --output'
complete -c mkbootimg -l vendor_boot -r -d 'The vendor boot image, which is created or emptied'
complete -c mkbootimg -l vendor_ramdisk -r -d 'The ramdisk of a vendor boot image'
complete -c mkbootimg -l vendor_bootconfig -r -d 'The bootconfig of a vendor boot image'
complete -c mkbootimg -l ramdisk_type -x -a 'none platform recovery dlkm' -d 'The type of a fragment: none, platform, recovery, dlkm or a number'
complete -c mkbootimg -l ramdisk_name -r -d 'The name of a fragment'
complete -c mkbootimg -l vendor_ramdisk_fragment -r -d 'The file of a fragment, behind its other options'
complete -c mkbootimg -l board_id0 -r -d 'A number of the board id of a fragment'
complete -c mkbootimg -l board_id1 -r -d 'A number of the board id of a fragment'
complete -c mkbootimg -l board_id2 -r -d 'A number of the board id of a fragment'
complete -c mkbootimg -l board_id3 -r -d 'A number of the board id of a fragment'
complete -c mkbootimg -l board_id4 -r -d 'A number of the board id of a fragment'
complete -c mkbootimg -l board_id5 -r -d 'A number of the board id of a fragment'
complete -c mkbootimg -l board_id6 -r -d 'A number of the board id of a fragment'
complete -c mkbootimg -l board_id7 -r -d 'A number of the board id of a fragment'
complete -c mkbootimg -l board_id8 -r -d 'A number of the board id of a fragment'
complete -c mkbootimg -l board_id9 -r -d 'A number of the board id of a fragment'
complete -c mkbootimg -l board_id10 -r -d 'A number of the board id of a fragment'
complete -c mkbootimg -l board_id11 -r -d 'A number of the board id of a fragment'
complete -c mkbootimg -l board_id12 -r -d 'A number of the board id of a fragment'
complete -c mkbootimg -l board_id13 -r -d 'A number of the board id of a fragment'
complete -c mkbootimg -l board_id14 -r -d 'A number of the board id of a fragment'
complete -c mkbootimg -l board_id15 -r -d 'A number of the board id of a fragment'
complete -c unpack_bootimg -l boot_img -r -d 'The boot image or vendor boot image'
complete -c unpack_bootimg -l out -r -d 'The folder of its parts, which is made where it is not there'
complete -c unpack_bootimg -l format -x -a 'info mkbootimg' -d 'What is printed: what the header says, or the words of mkbootimg that make the image again'
complete -c unpack_bootimg -l null -s 0 -d 'Each word of mkbootimg ends in a zero byte, and none is quoted'
"#;
